// The order table, apart from its methods: a file of specs/ names it.
ghost use Rattle.std.specs.Prelude.{◌≡◌, ◌≤◌, true, length};
ghost use Rattle.table.specs.Fits.{all_fit};

use arrayvec::ArrayVec;
use rules::limits::MOST_ORDERS;
use rules::order::Order;

mod choice;
mod edits;
mod reads;
mod trades;

// The open orders, in the order of their entry; each has from 1 lot to the largest volume, and a limit within the range
// of prices.
#[derive(Drop)]
pub struct Table {
    orders: ArrayVec<Order, MOST_ORDERS>,
    ghost within: { length orders.items ≤ 256 },
    ghost fit: { all_fit orders.items ≡ true },
}

// Which prices of a side are counted: a value and no closure, since it travels with a side from an entry to its walk.
#[derive(Clone, Copy, PartialEq, Eq, Debug)]
pub enum Prices {
    Any,
    AsGoodAs(u32),
    BetterThan(u32),
}
