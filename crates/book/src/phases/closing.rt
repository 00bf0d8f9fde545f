// The close.
ghost use Rattle.rules.specs.declared.calls.Answer.TheVariants.{Closed};
ghost use Rattle.rules.specs.declared.calls.Call.TheVariants.{CloseBook};
ghost use Rattle.rules.specs.declared.calls.Phase.TheVariants.{PreOpen, Open};
ghost use Rattle.book.specs.Model.{Moves};

use super::Book;
use crate::stage::{Trading, Waiting};
use policy::Policy;

impl<O: Policy, S: Policy> Book<Trading, O, S> {
    // Closes the book: uses it up, and gives the book before its next opening and the lots withdrawn, of bids and of offers.
    pub fn close(self) -> (Book<Waiting, O, S>, (u32, u32))
        ensures { Moves O.Policy.rule S.Policy.rule Open PreOpen self result.0 CloseBook (Closed result.1) }
    {
        let Book {
            stage: _,
            opening,
            session,
            mut held,
        } = self;
        let lots = held.close();
        // built anew, since its phase is its type
        let closed = Book {
            stage: Waiting,
            opening,
            session,
            held,
        };
        (closed, lots)
    }
}
