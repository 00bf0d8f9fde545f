// What the examples start from: a book that shares by price/time, and plain limit orders.
use book::phases::PreOpen;
use policy::PriceTime;
use rules::calls::{Condition, LimitEntry, TimeInForce};
use rules::ladder::Ladder;
use rules::order::Side;

pub fn new_book(ladder: Ladder) -> PreOpen<PriceTime, PriceTime> {
    PreOpen::new(PriceTime, PriceTime, ladder, 1, 9, 1)
}

pub fn limit(side: Side, lots: u32, price: u32) -> LimitEntry {
    LimitEntry {
        id: 1,
        side,
        price,
        lots,
        lifetime: TimeInForce::default(),
        condition: Condition::default(),
    }
}
