// Which orders are counted.
ghost use Rattle.std.specs.Prelude.{◌≡◌};
ghost use Rattle.table.specs.Choices.{among, counts};

use super::Prices;
use rules::order::{Order, Side};

impl Prices {
    pub fn among(self, side: Side, x: u32) -> bool
        ensures { result ≡ among self side x }
    {
        match self {
            Prices::Any => true,
            Prices::AsGoodAs(q) => side.as_good_as(q, x),
            Prices::BetterThan(q) => side.better_than(q, x),
        }
    }

    // Whether an order is a limit order of the side at one of the prices.
    pub fn has(self, side: Side, o: Order) -> bool
        ensures { result ≡ counts side self o }
    {
        o.limit(side).is_some_and(|x| self.among(side, x))
    }
}
