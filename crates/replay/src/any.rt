// A book in whichever phase, apart from its methods: a file of specs/ names it.
use book::phases::{PreOpen, Session};

mod reads;
mod sends;

pub enum AnyBook<O, S> {
    // A book before its opening.
    Waiting(PreOpen<O, S>),
    // A book in session.
    Trading(Session<O, S>),
}
