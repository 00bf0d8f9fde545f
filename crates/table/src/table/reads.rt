// What is read of a table.
ghost use Rattle.std.specs.Prelude.{◌≡◌, ◌≤◌, ◌==◌, Bool, length, position};
ghost use Rattle.rules.specs.declared.order.Order.{Order};
ghost use Rattle.rules.specs.Orders.{limits, held as held_by};
ghost use Rattle.rules.specs.Checks.{order_of};
ghost use Rattle.table.specs.Tables.{open_orders};
ghost use Rattle.table.specs.Choices.{among};
ghost use Rattle.table.specs.Tests.{Tells};

use super::{Prices, Table};
use rules::order::{Order, Side};

impl Table {
    // How many orders are open.
    pub fn len(&self) -> usize
        ensures { result ≡ length (open_orders self.now) }
    {
        self.orders.len()
    }

    pub fn orders(&self) -> &[Order]
        ensures { result.now ≡ open_orders self.now }
    {
        self.orders.as_slice()
    }

    // Where the open order of a number stands.
    pub(super) fn place(&self, number: u32) -> Option<usize>
        ensures { result ≡ position (λ o. o.number == number) (open_orders self.now) }
    {
        self.orders.iter().position(|o| o.number == number)
    }

    // The open order of a number.
    pub fn find(&self, number: u32) -> Option<Order>
        ensures { result ≡ order_of number (open_orders self.now) }
    {
        self.orders.iter().find(|o| o.number == number).copied()
    }

    // The lots of the open orders that pass. No chain: its sum must fit whatever the closure answers, and of a `filter` the
    // library's lemmas tell nothing unless a function tells the closure.
    pub fn held<F: Fn(Order) -> bool>(&self, passes: F) -> u32
        requires { F.IsAlwaysCallable passes }
        ensures value { (test : Order → Bool) → Tells (F.post passes) test → result ≡ held_by test (open_orders self.now) }
        ensures most { result ≤ 2559744 }
    {
        let mut sum = 0;
        for o in self.orders.iter() {
            let o = *o;
            sum += if passes(o) { o.lots } else { 0 };
        }
        sum
    }

    // The lots of the side's limit orders at some prices. Most callers ask at one price of one side, so a struct of both would
    // be built at each call.
    pub fn lots(&self, side: Side, prices: Prices) -> u32
        ensures value { result ≡ limits side (among prices side) (open_orders self.now) }
        ensures most { result ≤ 2559744 }
    {
        self.held(|o| prices.has(side, o))
    }
}
