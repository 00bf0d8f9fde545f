// Examples 1 to 9: small books and their openings.
use crate::start::{limit, new_book};
use book::phases::PreOpen;
use policy::PriceTime;
use rules::calls::{EntryAnswer, OnOpenEntry, OpeningAnswer, TimeInForce};
use rules::ladder::Ladder;
use rules::order::Kind::{Limit, OnOpen};
use rules::order::Side::{Bid, Offer};
use rules::order::{Kind, Order, Side};
use rules::refusal::Refusal;

// Lots at a price, or On-Open lots.
#[derive(Clone, Copy, PartialEq, Eq)]
struct Lots(Side, u32, Kind);

// What is entered, what the opening answers, and what it leaves.
#[derive(Clone, Copy)]
struct Example {
    ladder: Ladder,
    entries: &'static [Lots],
    answer: OpeningAnswer,
    left: &'static [Lots],
}

const EXAMPLES: [Example; 9] = [
    Example {
        ladder: Ladder::Bond,
        entries: &[Lots(Bid, 5, Limit(102)), Lots(Offer, 5, Limit(100))],
        answer: OpeningAnswer {
            price: Some(101),
            volume: 5,
            total: 5,
            withdrawn: 0,
        },
        left: &[],
    },
    Example {
        ladder: Ladder::Bond,
        entries: &[Lots(Bid, 5, Limit(103)), Lots(Offer, 5, Limit(100))],
        answer: OpeningAnswer {
            price: Some(101),
            volume: 5,
            total: 5,
            withdrawn: 0,
        },
        left: &[],
    },
    Example {
        ladder: Ladder::Bond,
        entries: &[
            Lots(Bid, 4, Limit(103)),
            Lots(Offer, 3, Limit(100)),
            Lots(Offer, 3, Limit(101)),
        ],
        answer: OpeningAnswer {
            price: Some(101),
            volume: 4,
            total: 4,
            withdrawn: 0,
        },
        left: &[Lots(Offer, 2, Limit(101))],
    },
    Example {
        ladder: Ladder::Bond,
        entries: &[
            Lots(Bid, 3, Limit(103)),
            Lots(Bid, 3, Limit(102)),
            Lots(Offer, 4, Limit(100)),
        ],
        answer: OpeningAnswer {
            price: Some(102),
            volume: 4,
            total: 4,
            withdrawn: 0,
        },
        left: &[Lots(Bid, 2, Limit(102))],
    },
    Example {
        ladder: Ladder::Bond,
        entries: &[
            Lots(Bid, 4, Limit(104)),
            Lots(Bid, 2, Limit(100)),
            Lots(Offer, 4, Limit(99)),
            Lots(Offer, 2, Limit(103)),
        ],
        answer: OpeningAnswer {
            price: Some(101),
            volume: 4,
            total: 4,
            withdrawn: 0,
        },
        left: &[Lots(Bid, 2, Limit(100)), Lots(Offer, 2, Limit(103))],
    },
    Example {
        ladder: Ladder::Bond,
        entries: &[
            Lots(Bid, 1, Limit(100)),
            Lots(Offer, 1, Limit(101)),
            Lots(Offer, 1, OnOpen),
        ],
        answer: OpeningAnswer {
            price: Some(100),
            volume: 0,
            total: 1,
            withdrawn: 0,
        },
        left: &[Lots(Offer, 1, Limit(101))],
    },
    Example {
        ladder: Ladder::Bond,
        entries: &[Lots(Bid, 1, Limit(100)), Lots(Offer, 1, OnOpen)],
        answer: OpeningAnswer {
            price: None,
            volume: 0,
            total: 0,
            withdrawn: 1,
        },
        left: &[Lots(Bid, 1, Limit(100))],
    },
    Example {
        ladder: Ladder::Bond,
        entries: &[
            Lots(Bid, 1, Limit(10)),
            Lots(Bid, 5, Limit(8)),
            Lots(Offer, 1, Limit(8)),
            Lots(Offer, 5, OnOpen),
        ],
        answer: OpeningAnswer {
            price: Some(10),
            volume: 1,
            total: 1,
            withdrawn: 0,
        },
        left: &[Lots(Bid, 5, Limit(8)), Lots(Offer, 5, Limit(10))],
    },
    Example {
        ladder: Ladder::Index,
        entries: &[
            Lots(Bid, 1, Limit(210)),
            Lots(Offer, 1, Limit(205)),
            Lots(Bid, 2, OnOpen),
        ],
        answer: OpeningAnswer {
            price: Some(207),
            volume: 1,
            total: 1,
            withdrawn: 0,
        },
        left: &[Lots(Bid, 2, Limit(207))],
    },
];

pub fn tried() -> [bool; 9] {
    EXAMPLES.map(|example| example.opens())
}

impl Example {
    // Enters the lots, opens, and compares.
    fn opens(&self) -> bool {
        let mut book = new_book(self.ladder);
        let taken = self
            .entries
            .iter()
            .all(|lots| enter(&mut book, *lots).is_ok());
        let (session, answer) = book.open();
        let left = session
            .orders()
            .iter()
            .map(Lots::of)
            .eq(self.left.iter().copied());
        let _ = session.end();
        taken && answer == self.answer && left
    }
}

impl Lots {
    fn of(order: &Order) -> Lots {
        Lots(order.side, order.lots, order.kind)
    }
}

fn enter(
    book: &mut PreOpen<PriceTime, PriceTime>,
    Lots(side, lots, kind): Lots,
) -> Result<EntryAnswer, Refusal> {
    match kind {
        Limit(price) => book.limit(limit(side, lots, price)),
        OnOpen => book.on_open(OnOpenEntry {
            id: 1,
            side,
            lots,
            lifetime: TimeInForce::default(),
        }),
    }
}
