// An order that comes into an open book.
use crate::calls::Condition;
use crate::order::{Lifetime, Side};

// A market order has no limit.
#[derive(Clone, Copy, PartialEq, Eq, Debug)]
pub struct Incoming {
    pub number: u32,
    pub id: u8,
    pub side: Side,
    pub limit: Option<u32>,
    pub lots: u32,
    pub lifetime: Lifetime,
    pub condition: Condition,
}
