// What is read of a book in either phase.
ghost use Rattle.std.specs.Prelude.{◌≡◌};
ghost use Rattle.book.specs.Model.{machine};

use super::Book;
use crate::stage::Stage;
use policy::Policy;
use rules::calls::Hours;
use rules::order::Order;
use rules::tape::TapeLine;

impl<P: Stage, O: Policy, S: Policy> Book<P, O, S> {
    pub fn today(&self) -> u16
        ensures { result ≡ (machine P.Stage.phase self.now.held).today }
    {
        self.held.today
    }

    pub fn hours(&self) -> Hours
        ensures { result ≡ (machine P.Stage.phase self.now.held).hours }
    {
        self.held.hours
    }

    // The open orders, in the order of their entry.
    pub fn orders(&self) -> &[Order]
        ensures { result.now ≡ (machine P.Stage.phase self.now.held).orders }
    {
        self.held.floor.table.orders()
    }

    pub fn tape(&self) -> &[TapeLine]
        ensures { result.now ≡ (machine P.Stage.phase self.now.held).tape }
    {
        self.held.floor.tape.lines()
    }

    // Takes the book apart.
    pub fn end(self) -> (O, S)
    where
        P: Drop,
        ensures opening { result.0 ≡ self.opening }
        ensures session { result.1 ≡ self.session }
    {
        let Book {
            stage: _,
            opening,
            session,
            held: _,
        } = self;
        (opening, session)
    }
}
