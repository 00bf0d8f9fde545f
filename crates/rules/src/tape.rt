// The tape: who traded, at which price, and how much.
use crate::order::Side;

#[derive(Clone, Copy, PartialEq, Eq, Debug, Default)]
pub struct TapeLine {
    pub number: u32,
    pub side: Side,
    pub price: u32,
    pub lots: u32,
}

// What a trade with a level is written at: the opening price; or, for the session entry of a number, the level's own
// price, with a line of the entry behind those of the level. No closure: one definition says what either writes.
#[derive(Clone, Copy, PartialEq, Eq, Debug)]
pub enum Terms {
    Opening(u32),
    Entry(u32),
}
