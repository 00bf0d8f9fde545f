// The price ladders.
mod rungs;

#[derive(Clone, Copy, PartialEq, Eq, Debug)]
pub enum Ladder {
    Securities,
    Index,
    Bond,
}

// From a price on, prices of the ladder are multiples of the step.
#[derive(Clone, Copy, PartialEq, Eq, Debug)]
pub struct Rung {
    pub ladder: Ladder,
    pub from: u32,
    pub step: u32,
}
