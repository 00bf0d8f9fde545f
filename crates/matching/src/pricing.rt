// The volume and the price at which a book would open.
ghost use Rattle.std.specs.Prelude.{◌≡◌, ℕ, min, max, Bool, ◌&&◌, if◌then◌else◌, Some, None, filter, nat_lt};
ghost use Rattle.rules.specs.Sides.{midpoint};
ghost use Rattle.rules.specs.Orders.{prices};
ghost use Rattle.rules.specs.Price.{tradable as tradable_of, volume as volume_of, price_at, untraded, highest, lowest};
ghost use Rattle.rules.specs.declared.order.Side.TheVariants.{Bid, Offer};
ghost use Rattle.table.specs.Tables.{open_orders};
ghost use Rattle.table.specs.Tests.{Tells};

use rules::limits::{HIGHEST_PRICE, LOWEST_PRICE};
use rules::order::Side;
use table::table::{Prices, Table};

// The highest of a side's prices that pass; of none, the end of the range. It and `lowest` stay two functions: one for
// both would take the end and the step too, and its clause would say a fold in place of the rule's word.
fn highest<F: Fn(u32) -> bool>(table: &Table, side: Side, passes: F) -> u32
    requires { F.IsAlwaysCallable passes }
    ensures { (test : ℕ → Bool) → Tells (F.post passes) test → result ≡ highest (filter test (prices side (open_orders table.now))) }
{
    table
        .orders()
        .iter()
        .filter_map(|o| o.limit(side))
        .filter(|x| passes(*x))
        .fold(LOWEST_PRICE, u32::max)
}

// The lowest of a side's prices that pass; of none, the end of the range.
fn lowest<F: Fn(u32) -> bool>(table: &Table, side: Side, passes: F) -> u32
    requires { F.IsAlwaysCallable passes }
    ensures { (test : ℕ → Bool) → Tells (F.post passes) test → result ≡ lowest (filter test (prices side (open_orders table.now))) }
{
    table
        .orders()
        .iter()
        .filter_map(|o| o.limit(side))
        .filter(|x| passes(*x))
        .fold(HIGHEST_PRICE, u32::min)
}

// Half the sum, rounded down.
fn middle(a: u32, b: u32) -> u32
    ensures { result ≡ midpoint a b }
{
    a.midpoint(b)
}

// The lots of limit orders that could trade with each other at q.
fn tradable(table: &Table, q: u32) -> u32
    ensures { result ≡ tradable_of (open_orders table.now) q }
{
    let bids = table.lots(Side::Bid, Prices::AsGoodAs(q));
    bids.min(table.lots(Side::Offer, Prices::AsGoodAs(q)))
}

// The lots of limit orders that trade with each other at the opening.
pub fn volume(table: &Table) -> u32
    ensures { result ≡ volume_of (open_orders table.now) }
{
    table
        .orders()
        .iter()
        .filter_map(|o| o.limit(Side::Bid))
        .map(|q| tradable(table, q))
        .max()
        .unwrap_or(0)
}

// The price where both sides have lots left: the middle between the lower of the lowest traded bid and the lowest
// untraded offer, and the higher of the highest traded offer and the highest untraded bid.
fn price_between(table: &Table, v: u32, last_bid: u32, last_offer: u32) -> u32
    ensures { result ≡ midpoint (min last_bid (lowest (untraded Offer v (open_orders table.now)))) (max last_offer (highest (untraded Bid v (open_orders table.now)))) }
{
    let offer = lowest(
        table,
        Side::Offer,
        |x| v < table.lots(Side::Offer, Prices::AsGoodAs(x)),
    );
    let bid = highest(
        table,
        Side::Bid,
        |x| v < table.lots(Side::Bid, Prices::AsGoodAs(x)),
    );
    let x = last_bid.min(offer);
    middle(x, last_offer.max(bid))
}

// The price where no lot trades: the middle between the best bid and the best offer, if both sides have lots.
fn price_untraded(table: &Table, bids: u32, offers: u32) -> Option<u32>
    ensures { result ≡ (if nat_lt 0 bids && nat_lt 0 offers then Some (midpoint (highest (prices Bid (open_orders table.now))) (lowest (prices Offer (open_orders table.now)))) else None) }
{
    if bids == 0 || offers == 0 {
        return None;
    }
    let bid = highest(table, Side::Bid, |_| true);
    Some(middle(bid, lowest(table, Side::Offer, |_| true)))
}

// The opening price, if there is one, where v lots of limit orders trade.
pub fn price(table: &Table, v: u32) -> Option<u32>
    ensures { result ≡ price_at v (open_orders table.now) }
{
    let bids = table.lots(Side::Bid, Prices::Any);
    let offers = table.lots(Side::Offer, Prices::Any);
    if v == 0 {
        return price_untraded(table, bids, offers);
    }
    let last_bid = lowest(
        table,
        Side::Bid,
        |x| table.lots(Side::Bid, Prices::BetterThan(x)) < v,
    );
    let last_offer = highest(
        table,
        Side::Offer,
        |x| table.lots(Side::Offer, Prices::BetterThan(x)) < v,
    );
    if bids <= v && offers <= v {
        Some(middle(last_offer, last_bid))
    } else if bids <= v {
        Some(last_offer)
    } else if offers <= v {
        Some(last_bid)
    } else {
        Some(price_between(table, v, last_bid, last_offer))
    }
}
