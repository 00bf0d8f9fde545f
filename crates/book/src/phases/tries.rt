// The trial.
ghost use Rattle.rules.specs.declared.calls.Answer.TheVariants.{Tried};
ghost use Rattle.rules.specs.declared.calls.Call.TheVariants.{Try};
ghost use Rattle.rules.specs.declared.calls.Phase.TheVariants.{PreOpen};
ghost use Rattle.book.specs.Model.{Calls, said};

use super::Book;
use crate::stage::Waiting;
use crate::trial::TrialGuard;
use policy::Policy;
use rules::calls::{Trial, TrialAnswer};
use rules::order::{Kind, Lifetime, Order};
use rules::refusal::Refusal;

impl<O: Policy, S: Policy> Book<Waiting, O, S> {
    // How the book would open with one limit order more. The order is in the table only while the answer is found.
    pub fn trial(&mut self, t: Trial) -> Result<TrialAnswer, Refusal>
        ensures { Calls O.Policy.rule S.Policy.rule PreOpen self.old self.new (Try t) (said Tried result) }
    {
        self.held.check_trial(t)?;
        let number = self.held.next;
        let len = self.held.floor.table.len();
        let guard = TrialGuard {
            table: &mut self.held.floor.table,
            len,
        };
        guard.table.push(Order {
            number,
            id: 0,
            side: t.side,
            kind: Kind::Limit(t.price),
            lots: t.lots,
            lifetime: Lifetime::Plain,
        });
        let volume = matching::volume(guard.table);
        let price = matching::price(guard.table, volume);
        Ok(TrialAnswer { price, volume })
    }
}
