// Examples 14 and 15: prices on and off the ladders, and the full book.
use crate::start::{limit, new_book};
use book::phases::PreOpen;
use policy::PriceTime;
use rules::ladder::Ladder;
use rules::order::Side;
use rules::refusal::Refusal;

pub fn tried() -> [bool; 2] {
    [ladders(), full()]
}

// How an entry of one lot is taken, or the number of its refusal.
fn enter(book: &mut PreOpen<PriceTime, PriceTime>, side: Side, price: u32) -> Result<(), u32> {
    book.limit(limit(side, 1, price))
        .map(|_| ())
        .map_err(Refusal::number)
}

// A price off the ladder is refused.
fn ladders() -> bool {
    let mut securities = new_book(Ladder::Securities);
    let a = enter(&mut securities, Side::Bid, 1_999);
    let b = enter(&mut securities, Side::Bid, 2_002);
    let c = enter(&mut securities, Side::Bid, 2_001);
    let _ = securities.end();
    let mut index = new_book(Ladder::Index);
    let d = enter(&mut index, Side::Bid, 205);
    let e = enter(&mut index, Side::Bid, 201);
    let _ = index.end();
    [a, b, c, d, e] == [Ok(()), Ok(()), Err(3), Ok(()), Err(3)]
}

// 256 bids are taken, and then an offer that would trade out is refused.
fn full() -> bool {
    let mut book = new_book(Ladder::Bond);
    let taken = (0..256).all(|_| enter(&mut book, Side::Bid, 100).is_ok());
    let last = enter(&mut book, Side::Offer, 100);
    let _ = book.end();
    taken && last == Err(8)
}
