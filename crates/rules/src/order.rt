// An open order, and what it is made of.
mod methods;

#[derive(Clone, Copy, PartialEq, Eq, Debug, Default)]
pub enum Side {
    #[default]
    Bid,
    Offer,
}

// A limit order has a price; an On-Open order waits for the opening's. No Option: an order without a price that comes
// into an open book is a market order, which is something else.
#[derive(Clone, Copy, PartialEq, Eq, Debug, Default)]
pub enum Kind {
    Limit(u32),
    #[default]
    OnOpen,
}

// The orders of a side at one price, or its On-Open orders.
#[derive(Clone, Copy, PartialEq, Eq, Debug)]
pub struct Level {
    pub side: Side,
    pub kind: Kind,
}

// How long an order stays open: to the evening close, to the next close, or to the evening close of a day. What an entry
// asks for may leave the day out, so it has a type of its own, `TimeInForce`: as two uses of one `Lifetime<D>` both would
// need their names again.
#[derive(Clone, Copy, PartialEq, Eq, Debug, Default)]
pub enum Lifetime {
    #[default]
    Plain,
    Gis,
    Gtc(u16),
}

// The defaults of an order and its parts are what the unused places of an ArrayVec hold.
#[derive(Clone, Copy, PartialEq, Eq, Debug, Default)]
pub struct Order {
    pub number: u32,
    pub id: u8,
    pub side: Side,
    pub kind: Kind,
    pub lots: u32,
    pub lifetime: Lifetime,
}
