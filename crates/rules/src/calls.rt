// What may be asked of a book, and what it answers.
use crate::order::Side;
use crate::refusal::Refusal;

mod closing;

// The lifetime an entry asks for; a GTC order without a day is good till the last trading day.
#[derive(Clone, Copy, PartialEq, Eq, Debug, Default)]
pub enum TimeInForce {
    #[default]
    Plain,
    Gis,
    Gtc(Option<u16>),
}

// On what condition an entry trades. IC: what does not trade at once is withdrawn. CV: all of it trades at once, or
// nothing does. MV: at least the minimum trades at once, or nothing does.
#[derive(Clone, Copy, PartialEq, Eq, Debug, Default)]
pub enum Condition {
    #[default]
    Unconditional,
    Ic,
    Cv,
    Mv(u32),
}

// Three types of entries, since each call has its own words: an On-Open entry has no price and no condition, a market
// entry no price.
#[derive(Clone, Copy, PartialEq, Eq, Debug)]
pub struct LimitEntry {
    pub id: u8,
    pub side: Side,
    pub price: u32,
    pub lots: u32,
    pub lifetime: TimeInForce,
    pub condition: Condition,
}

#[derive(Clone, Copy, PartialEq, Eq, Debug)]
pub struct OnOpenEntry {
    pub id: u8,
    pub side: Side,
    pub lots: u32,
    pub lifetime: TimeInForce,
}

#[derive(Clone, Copy, PartialEq, Eq, Debug)]
pub struct MarketEntry {
    pub id: u8,
    pub side: Side,
    pub lots: u32,
    pub lifetime: TimeInForce,
    pub condition: Condition,
}

// A limit order that is set into the book to see how it would open, and taken out again.
#[derive(Clone, Copy, PartialEq, Eq, Debug)]
pub struct Trial {
    pub side: Side,
    pub price: u32,
    pub lots: u32,
}

#[derive(Clone, Copy, PartialEq, Eq, Debug)]
pub enum Call {
    EnterLimit(LimitEntry),
    EnterOnOpen(OnOpenEntry),
    EnterMarket(MarketEntry),
    Cancel { id: u8, number: u32 },
    Reduce { id: u8, number: u32, lots: u32 },
    TakeLineDown(u8),
    BringLineUp(u8),
    NameSuccessor { id: u8, successor: u8 },
    Try(Trial),
    OpenBook,
    CloseBook,
}

// Whether a book waits for its opening or trades.
#[derive(Clone, Copy, PartialEq, Eq, Debug)]
pub enum Phase {
    PreOpen,
    Open,
}

// Whether the session at hand, or the next one, is the day's or the evening's.
#[derive(Clone, Copy, PartialEq, Eq, Debug)]
pub enum Hours {
    Day,
    Evening,
}

// The entry's number, and its lots by what became of them.
#[derive(Clone, Copy, PartialEq, Eq, Debug)]
pub struct EntryAnswer {
    pub number: u32,
    pub traded: u32,
    pub withdrawn: u32,
    pub open: u32,
}

#[derive(Clone, Copy, PartialEq, Eq, Debug)]
pub struct TrialAnswer {
    pub price: Option<u32>,
    pub volume: u32,
}

// The lots of limit orders that traded with each other, all lots bought, the lots withdrawn, and the price if there is one.
#[derive(Clone, Copy, PartialEq, Eq, Debug)]
pub struct OpeningAnswer {
    pub volume: u32,
    pub total: u32,
    pub withdrawn: u32,
    pub price: Option<u32>,
}

// Pairs of lots withdrawn are bids and offers. A refusal is an answer too: the rule book's machine and the laws over runs
// say so, and a run keeps one answer for each call. The calls themselves answer a Result, and `?` hands a refusal on.
#[derive(Clone, Copy, PartialEq, Eq, Debug)]
pub enum Answer {
    Entered(EntryAnswer),
    Cancelled(u32),
    Reduced(u32),
    Dropped((u32, u32)),
    Done,
    Tried(TrialAnswer),
    Opened(OpeningAnswer),
    Closed((u32, u32)),
    Refused(Refusal),
    WrongPhase,
}
