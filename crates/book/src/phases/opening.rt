// The opening.
ghost use Rattle.rules.specs.declared.calls.Answer.TheVariants.{Opened};
ghost use Rattle.rules.specs.declared.calls.Call.TheVariants.{OpenBook};
ghost use Rattle.rules.specs.declared.calls.Phase.TheVariants.{PreOpen, Open};
ghost use Rattle.book.specs.Model.{Moves};

use super::Book;
use crate::stage::{Trading, Waiting};
use policy::Policy;
use rules::calls::OpeningAnswer;

impl<O: Policy, S: Policy> Book<Waiting, O, S> {
    // Opens the book: uses it up, and gives the session book and the answer.
    pub fn open(self) -> (Book<Trading, O, S>, OpeningAnswer)
        ensures { Moves O.Policy.rule S.Policy.rule PreOpen Open self result.0 OpenBook (Opened result.1) }
    {
        let Book {
            stage: _,
            opening,
            session,
            mut held,
        } = self;
        let answer = held.floor.open_orders(&opening);
        // built anew, since its phase is its type
        let opened = Book {
            stage: Trading,
            opening,
            session,
            held,
        };
        (opened, answer)
    }
}
