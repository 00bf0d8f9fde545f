// How a ledger is kept.
ghost use Rattle.std.specs.Prelude.{◌≡◌, Some};
ghost use Rattle.optbook.specs.Ledgers.{volume_of, accepted_by, withdrawn_by, noted, line_lots, traded_lots, open_lots, balance_text};

use super::{Balance, Ledger};
use rules::calls::{Answer, Call};
use rules::order::{Order, Side};
use rules::tape::TapeLine;
use std::fmt;

// The volume of an entry.
fn volume(call: Call) -> u32
    ensures { result ≡ volume_of call }
{
    match call {
        Call::EnterLimit(e) => e.lots,
        Call::EnterOnOpen(e) => e.lots,
        Call::EnterMarket(e) => e.lots,
        _ => 0,
    }
}

// The lots that a call withdrew, by its answer; a reduction answers what is left, and withdrew what it named.
fn withdrawn(call: Call, answer: Answer) -> u64
    ensures { result ≡ withdrawn_by call answer }
{
    match (answer, call) {
        (Answer::Entered(e), _) => u64::from(e.withdrawn),
        (Answer::Cancelled(lots), _) => u64::from(lots),
        (Answer::Reduced(_), Call::Reduce { lots, .. }) => u64::from(lots),
        (Answer::Dropped((bids, offers)) | Answer::Closed((bids, offers)), _) => u64::from(bids)
            + u64::from(offers),
        (Answer::Opened(o), _) => u64::from(o.withdrawn),
        _ => 0,
    }
}

// The lots that a call brought into the book's account.
fn accepted(call: Call, answer: Answer) -> u64
    ensures { result ≡ accepted_by call answer }
{
    match answer {
        Answer::Entered(_) => u64::from(volume(call)),
        _ => 0,
    }
}

impl Ledger {
    // The tape is the one that the call wrote.
    pub fn note(&mut self, call: Call, answer: Answer, tape: &[TapeLine])
        ensures { self.new ≡ noted self.old call answer tape.now }
    {
        self.accepted = self.accepted.saturating_add(accepted(call, answer));
        self.withdrawn = self.withdrawn.saturating_add(withdrawn(call, answer));
        self.bought = traded(self.bought, tape, Side::Bid);
        self.sold = traded(self.sold, tape, Side::Offer);
    }
}

// The lots of a line of the side, else none.
fn line_lots(line: TapeLine, side: Side) -> u64
    ensures { result ≡ line_lots side line }
{
    if line.side == side {
        u64::from(line.lots)
    } else {
        0
    }
}

// A count, with the lots of a tape's lines of the side.
fn traded(count: u64, tape: &[TapeLine], side: Side) -> u64
    ensures { result ≡ traded_lots side count tape.now }
{
    tape.iter()
        .map(|line| line_lots(*line, side))
        .fold(count, u64::saturating_add)
}

// The lots that the orders still hold.
pub fn open_lots(orders: &[Order]) -> u64
    ensures { result ≡ open_lots 0 orders.now }
{
    orders
        .iter()
        .map(|order| u64::from(order.lots))
        .fold(0, u64::saturating_add)
}

impl fmt::Display for Balance {
    ghost output = { λ b. Some (balance_text b) };

    fn fmt<W: fmt::Write>(&self, f: &mut fmt::Formatter<W>) -> fmt::Result {
        let Balance { ledger, open } = *self;
        let Ledger {
            accepted,
            withdrawn,
            bought,
            sold,
        } = ledger;
        let traded = bought.saturating_add(sold);
        write!(
            f,
            "lots accepted {accepted} traded {traded} withdrawn {withdrawn} open {open} bought {bought} sold {sold}"
        )
    }
}
