// What is asked of some prices of one side.
ghost use Rattle.std.specs.Prelude.{◌≡◌};
ghost use Rattle.table.specs.Tables.{open_orders};
ghost use Rattle.matching.specs.Best.{first_of, next_of, better_of};
ghost use Rattle.matching.specs.Spans.{spans, ranked_in, facing};

use super::Span;
use rules::incoming::Incoming;
use rules::order::Side;
use table::table::{Prices, Table};

// The better of two prices.
fn better(side: Side, y: u32, x: u32) -> u32
    ensures { result ≡ better_of side y x }
{
    if side.better_than(y, x) { x } else { y }
}

impl Span {
    // The prices of the other side that an entry accepts.
    pub(crate) fn facing(e: Incoming) -> Span
        ensures { result ≡ facing e }
    {
        Span {
            side: e.side.other(),
            prices: e.limit.map_or(Prices::Any, Prices::AsGoodAs),
        }
    }

    // Whether a price is one of the span's.
    fn has(self, x: u32) -> bool
        ensures { result ≡ spans self x }
    {
        self.prices.among(self.side, x)
    }

    // The best of its prices at which limit orders are open.
    fn best(self, table: &Table) -> Option<u32>
        ensures { result ≡ first_of (ranked_in self (open_orders table.now)) }
    {
        table
            .orders()
            .iter()
            .filter_map(|o| o.limit(self.side))
            .filter(|x| self.has(*x))
            .reduce(|y, x| better(self.side, y, x))
    }

    // The price of the next level that the lots left trade with.
    pub(crate) fn next_price(self, table: &Table, left: u32) -> Option<u32>
        ensures { result ≡ next_of left (ranked_in self (open_orders table.now)) }
    {
        if left == 0 {
            return None;
        }
        self.best(table)
    }
}
