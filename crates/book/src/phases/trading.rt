// The entries that a book takes in session.
ghost use Rattle.std.specs.Prelude.{◌≡◌, ◌<◌, ◌≤◌, true};
ghost use Rattle.rules.specs.declared.calls.Answer.TheVariants.{Entered};
ghost use Rattle.rules.specs.declared.calls.Call.TheVariants.{EnterLimit, EnterMarket};
ghost use Rattle.rules.specs.declared.calls.Phase.TheVariants.{Open};
ghost use Rattle.rules.specs.Steps.{meet};
ghost use Rattle.table.specs.Tables.{open_orders};
ghost use Rattle.matching.specs.Entries.{room_for};
ghost use Rattle.book.specs.Model.{trading, rules_of, incoming, Gives, SamePolicies, Calls, said};

use super::Book;
use crate::stage::Trading;
use policy::Policy;
use rules::calls::{Condition, EntryAnswer, LimitEntry, MarketEntry, Phase, TimeInForce};
use rules::incoming::Incoming;
use rules::order::Side;
use rules::refusal::Refusal;

impl<O: Policy, S: Policy> Book<Trading, O, S> {
    pub fn limit(&mut self, e: LimitEntry) -> Result<EntryAnswer, Refusal>
        ensures { Calls O.Policy.rule S.Policy.rule Open self.old self.new (EnterLimit e) (said Entered result) }
    {
        self.held.check_limit(Phase::Open, e)?;
        Ok(self.meet(e.id, e.side, Some(e.price), e.lots, e.lifetime, e.condition))
    }

    pub fn market(&mut self, e: MarketEntry) -> Result<EntryAnswer, Refusal>
        ensures { Calls O.Policy.rule S.Policy.rule Open self.old self.new (EnterMarket e) (said Entered result) }
    {
        self.held.check_market(e)?;
        Ok(self.meet(e.id, e.side, None, e.lots, e.lifetime, e.condition))
    }

    // Numbers an entry, which then meets the book. The words of an entry come one by one, and its conditions stand here, as
    // at `Held::wait`.
    fn meet(
        &mut self,
        id: u8,
        side: Side,
        limit: Option<u32>,
        lots: u32,
        t: TimeInForce,
        condition: Condition,
    ) -> EntryAnswer
        requires number { self.old.held.next < 4294967295 }
        requires room { room_for limit (open_orders self.old.held.floor.table) ≡ true }
        requires few { lots ≤ 9999 }
        ensures step { Gives (meet (rules_of O.Policy.rule S.Policy.rule self.old) (trading self.old) (incoming (trading self.old) id side limit lots t condition)) (Entered result) (trading self.new) }
        ensures policies { SamePolicies self.old self.new }
    {
        let number = self.held.next;
        let lifetime = self.held.lifetime(t);
        self.held.next = number + 1;
        let entry = Incoming {
            number,
            id,
            side,
            limit,
            lots,
            lifetime,
            condition,
        };
        self.held.floor.enter(&self.session, entry)
    }
}
