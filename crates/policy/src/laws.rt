// What the rules keep, one law to a function: a law is proved because a contract names it.
ghost use Rattle.policy.specs.Laws.{QueuesAreAnswered, PriceTimeEarliest, ProRataNear, ProRataPlaces, FavourFirst};
ghost use Rattle.policy.specs.Samples.{SampleQueues};

#[tactic(auto, using(crate::proofs::Kept::queues_are_answered))]
pub fn queues_alone_are_answered()
    ensures { QueuesAreAnswered }
{}

#[tactic(auto, using(crate::proofs::Kept::price_time_earliest))]
pub fn price_time_fills_the_earlier_first()
    ensures { PriceTimeEarliest }
{}

#[tactic(auto, using(crate::proofs::Kept::pro_rata_near))]
pub fn pro_rata_is_within_a_lot_of_exact()
    ensures { ProRataNear }
{}

#[tactic(auto, using(crate::proofs::Kept::pro_rata_places))]
pub fn pro_rata_spares_go_to_the_first_broken()
    ensures { ProRataPlaces }
{}

#[tactic(auto, using(crate::proofs::Kept::favour_first))]
pub fn favour_serves_a_first_that_holds_the_minimum()
    ensures { FavourFirst }
{}

pub fn samples_hold()
    ensures { SampleQueues }
{}
