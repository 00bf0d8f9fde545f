// A day of a book, used as it should be: an On-Open order before the opening, one opening, a market order after it.
#![tactic(auto)]

ghost use Rattle.std.specs.Prelude.{◌≡◌};

use book::phases::PreOpen;
use policy::{PriceTime, ProRata};
use rules::calls::{Condition, MarketEntry, OnOpenEntry, TimeInForce};
use rules::order::Side;

// The policies come back as they went in.
pub fn day(mut book: PreOpen<PriceTime, ProRata>) -> (PriceTime, ProRata)
    ensures opening { result.0 ≡ book.opening }
    ensures session { result.1 ≡ book.session }
{
    let _ = book.on_open(OnOpenEntry {
        id: 1,
        side: Side::Bid,
        lots: 5,
        lifetime: TimeInForce::Plain,
    });
    let (mut session, _) = book.open();
    let _ = session.market(MarketEntry {
        id: 2,
        side: Side::Offer,
        lots: 3,
        lifetime: TimeInForce::Plain,
        condition: Condition::Unconditional,
    });
    session.end()
}
