// What the rules ask of a side, a kind and an order.
ghost use Rattle.std.specs.Prelude.{◌≡◌};
ghost use Rattle.rules.specs.Sides.{is, other, better_than, as_good_as};
ghost use Rattle.rules.specs.Orders.{same, at, limit_of};
ghost use Rattle.rules.specs.Trades.{less};
ghost use Rattle.rules.specs.Opening.{turn};
ghost use Rattle.rules.specs.Lines.{drops, passed};
ghost use Rattle.rules.specs.Steps.{lapses};

use super::{Kind, Lifetime, Order, Side};
use crate::calls::Hours;

impl Side {
    pub fn is(self, side: Side) -> bool
        ensures { result ≡ is self side }
    {
        self == side
    }

    pub fn other(self) -> Side
        ensures { result ≡ other self }
    {
        match self {
            Side::Bid => Side::Offer,
            Side::Offer => Side::Bid,
        }
    }

    // Whether x is a better price than q for orders of the side.
    pub fn better_than(self, q: u32, x: u32) -> bool
        ensures { result ≡ better_than self q x }
    {
        match self {
            Side::Bid => q < x,
            Side::Offer => x < q,
        }
    }

    // Whether x is as good a price as q, or better.
    pub fn as_good_as(self, q: u32, x: u32) -> bool
        ensures { result ≡ as_good_as self q x }
    {
        match self {
            Side::Bid => q <= x,
            Side::Offer => x <= q,
        }
    }
}

impl Kind {
    pub fn is(self, kind: Kind) -> bool
        ensures { result ≡ same self kind }
    {
        self == kind
    }
}

impl Order {
    // The price of a limit order of the side.
    pub fn limit(self, side: Side) -> Option<u32>
        ensures { result ≡ limit_of side self }
    {
        match self.kind {
            _ if side != self.side => None,
            Kind::Limit(x) => Some(x),
            Kind::OnOpen => None,
        }
    }

    // Whether the order is of the level.
    pub fn at(self, side: Side, kind: Kind) -> bool
        ensures { result ≡ at side kind self }
    {
        side == self.side && kind == self.kind
    }

    // Whether the order does not outlive the line of the ID.
    pub fn drops(self, id: u8) -> bool
        ensures { result ≡ drops id self }
    {
        self.id == id && !matches!(self.lifetime, Lifetime::Gtc(_))
    }

    // Whether the order is withdrawn by a close.
    pub fn lapses(self, hours: Hours, today: u16) -> bool
        ensures { result ≡ lapses hours today self.lifetime }
    {
        match (hours, self.lifetime) {
            (_, Lifetime::Gis) => true,
            (Hours::Day, _) => false,
            (Hours::Evening, Lifetime::Plain) => true,
            (Hours::Evening, Lifetime::Gtc(day)) => day == today,
        }
    }

    // The order in the hands of another ID.
    pub fn passed(self, id: u8) -> Order
        ensures { result ≡ passed id self }
    {
        Order { id, ..self }
    }

    // An On-Open order as a limit order at the price; a limit order as it is.
    pub fn turned(self, price: u32) -> Order
        ensures { result ≡ turn price self }
    {
        match self.kind {
            Kind::Limit(_) => self,
            Kind::OnOpen => Order {
                kind: Kind::Limit(price),
                ..self
            },
        }
    }

    // The order with that many lots less; with none where it has no more.
    pub fn less(self, lots: u32) -> Order
        ensures { result ≡ less self lots }
    {
        Order {
            lots: self.lots.saturating_sub(lots),
            ..self
        }
    }
}
