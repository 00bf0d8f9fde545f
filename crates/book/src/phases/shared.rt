// The calls that a book takes in either phase.
ghost use Rattle.rules.specs.declared.calls.Answer.TheVariants.{Cancelled, Reduced, Dropped, Done};
ghost use Rattle.rules.specs.declared.calls.Call.TheVariants.{Cancel, Reduce, TakeLineDown, BringLineUp, NameSuccessor};
ghost use Rattle.book.specs.Model.{Calls, said};

use super::Book;
use crate::stage::Stage;
use policy::Policy;
use rules::refusal::Refusal;

impl<P: Stage, O: Policy, S: Policy> Book<P, O, S> {
    pub fn cancel(&mut self, id: u8, number: u32) -> Result<u32, Refusal>
        ensures { Calls O.Policy.rule S.Policy.rule P.Stage.phase self.old self.new (Cancel id number) (said Cancelled result) }
    {
        self.held.cancel(id, number)
    }

    pub fn reduce(&mut self, id: u8, number: u32, lots: u32) -> Result<u32, Refusal>
        ensures { Calls O.Policy.rule S.Policy.rule P.Stage.phase self.old self.new (Reduce id number lots) (said Reduced result) }
    {
        self.held.reduce(id, number, lots)
    }

    pub fn line_down(&mut self, id: u8) -> Result<(u32, u32), Refusal>
        ensures { Calls O.Policy.rule S.Policy.rule P.Stage.phase self.old self.new (TakeLineDown id) (said Dropped result) }
    {
        self.held.line_down(id)
    }

    pub fn line_up(&mut self, id: u8) -> Result<(), Refusal>
        ensures { Calls O.Policy.rule S.Policy.rule P.Stage.phase self.old self.new (BringLineUp id) (said (λ _. Done) result) }
    {
        self.held.line_up(id)
    }

    pub fn successor(&mut self, id: u8, successor: u8) -> Result<(), Refusal>
        ensures { Calls O.Policy.rule S.Policy.rule P.Stage.phase self.old self.new (NameSuccessor id successor) (said (λ _. Done) result) }
    {
        self.held.successor(id, successor)
    }
}
