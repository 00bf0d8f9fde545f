// What the rules keep, one law to a function: a law is proved because a contract names it.
ghost use Rattle.rules.specs.Laws.{VolumeIsLargest, FillKeepsLots, BetterLevelsFirst, PriceLiesBetween, StepsAsListed};
ghost use Rattle.rules.specs.Samples.{TwelveSamples};

// The volume is attained at some price and exceeded at none.
pub fn volume_is_largest()
    ensures { VolumeIsLargest }
{}

// A fill of a level loses no lot, and the level gives the lesser of what it holds and what is asked.
pub fn fill_keeps_lots()
    ensures { FillKeepsLots }
{}

// A level trades what is left after all better levels, and no more.
#[tactic(auto, using(crate::proofs::Kept::better_levels_first))]
pub fn better_levels_first()
    ensures { BetterLevelsFirst }
{}

// No bid that stage one leaves is above the opening price, and no offer below it; and all that trades in stage three
// trades with an order that was turned.
pub fn price_lies_between()
    ensures { PriceLiesBetween }
{}

// The table of rungs gives the step of each ladder at every price.
#[tactic(auto, using(crate::proofs::Kept::steps_as_listed))]
pub fn ladder_steps_are_as_listed()
    ensures { StepsAsListed }
{}

// Nine small books open as listed, and three small queues are shared as listed.
#[tactic(auto, using(crate::proofs::Sampled::twelve_samples))]
pub fn samples_hold()
    ensures { TwelveSamples }
{}
