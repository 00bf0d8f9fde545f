// Example 13: offers of 2 at 100 and 3 at 101, and a bid of 6 at 101 under each condition.
use crate::start::{limit, new_book};
use rules::calls::{Condition, EntryAnswer, LimitEntry};
use rules::ladder::Ladder;
use rules::order::Side;

pub fn tried() -> bool {
    let ic = EntryAnswer {
        number: 3,
        traded: 5,
        withdrawn: 1,
        open: 0,
    };
    let cv = EntryAnswer {
        number: 3,
        traded: 0,
        withdrawn: 6,
        open: 0,
    };
    let mv = EntryAnswer {
        number: 3,
        traded: 5,
        withdrawn: 0,
        open: 1,
    };
    bids(Condition::Ic, ic) && bids(Condition::Cv, cv) && bids(Condition::Mv(3), mv)
}

// Whether the bid is answered as written.
fn bids(condition: Condition, wanted: EntryAnswer) -> bool {
    let (mut book, _) = new_book(Ladder::Bond).open();
    let offered = book.limit(limit(Side::Offer, 2, 100)).is_ok()
        && book.limit(limit(Side::Offer, 3, 101)).is_ok();
    let answer = book.limit(LimitEntry {
        condition,
        ..limit(Side::Bid, 6, 101)
    });
    let _ = book.end();
    offered && answer == Ok(wanted)
}
