// The line of a Trading ID.
mod methods;

// Up or down, with its successor if one is named. No struct of both: a line call matches on the state and the event
// together.
#[derive(Clone, Copy, PartialEq, Eq, Debug)]
pub enum Line {
    Up(Option<u8>),
    Down(Option<u8>),
}

// What a line call does to a line: an enum and no closure, since the rule is one table of states and events.
#[derive(Clone, Copy, PartialEq, Eq, Debug)]
pub enum LineEvent {
    GoesDown,
    ComesUp,
    Names(u8),
}
