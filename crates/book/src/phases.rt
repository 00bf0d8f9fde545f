// A book in one of its phases, apart from its methods: a file of specs/ names it.
use crate::held::Held;
use crate::stage::{Trading, Waiting};

mod closing;
mod opening;
mod reads;
mod shared;
mod trading;
mod tries;
mod waiting;

// A book cannot be let go in silence: an opening, a close or `end` uses it up.
pub struct Book<P, O, S> {
    stage: P,
    opening: O,
    session: S,
    held: Held,
}

// A book before its opening, and one in session.
pub type PreOpen<O, S> = Book<Waiting, O, S>;

pub type Session<O, S> = Book<Trading, O, S>;
