// An entry that meets an open book.
ghost use Rattle.std.specs.Prelude.{◌≡◌, ◌≤◌, true, ◌++◌};
ghost use Rattle.rules.specs.Session.{enough, rests, resting, matched};
ghost use Rattle.table.specs.Tables.{open_orders, tape_lines};
ghost use Rattle.matching.specs.Entries.{allowed, left_of, room_for, entry_answer, settled_answer};
ghost use Rattle.matching.specs.Steps.{step_of};

use crate::floor::Floor;
use crate::span::Span;
use policy::Policy;
use rules::calls::{Condition, EntryAnswer};
use rules::incoming::Incoming;
use rules::order::{Kind, Order};
use rules::tape::Terms;
use table::table::Table;

// Whether the lots within reach meet the condition.
fn enough(condition: Condition, lots: u32, reach: u32) -> bool
    ensures { result ≡ enough condition lots reach }
{
    match condition {
        Condition::Unconditional | Condition::Ic => true,
        Condition::Cv => lots <= reach,
        Condition::Mv(minimum) => minimum <= reach,
    }
}

// Whether the untraded rest stays open.
fn rests(limit: Option<u32>, condition: Condition) -> bool
    ensures { result ≡ rests limit condition }
{
    limit.is_some() && condition != Condition::Ic
}

// Sets the rest of an entry behind the other orders, if it stays open. That the lots are few is asked here, of `enter` and
// of its caller: `Incoming` is open to all, and its type asks it of nobody who writes one.
fn set_rest(table: &mut Table, e: Incoming, left: u32)
    requires room { room_for e.limit (open_orders table.old) ≡ true }
    requires few { left ≤ 9999 }
    ensures { open_orders table.new ≡ open_orders table.old ++ resting e e.limit left }
{
    if let Some(price) = e.limit {
        if rests(e.limit, e.condition) && left > 0 {
            table.push(Order {
                number: e.number,
                id: e.id,
                side: e.side,
                kind: Kind::Limit(price),
                lots: left,
                lifetime: e.lifetime,
            });
        }
    }
}

// What became of the lots of an entry that met its condition.
fn settled(e: Incoming, left: u32) -> EntryAnswer
    requires { left ≤ e.lots }
    ensures { result ≡ settled_answer e left }
{
    let (withdrawn, open) = if rests(e.limit, e.condition) {
        (0, left)
    } else {
        (left, 0)
    };
    EntryAnswer {
        number: e.number,
        traded: e.lots - left,
        withdrawn,
        open,
    }
}

impl Floor {
    // Counts the lots within reach of an entry; where they meet its condition, trades with them, and answers the lots
    // left.
    #[tactic(auto, using(crate::proofs::Stages::prices_within))]
    fn trade_allowed<P: Policy>(&mut self, policy: &P, e: Incoming) -> Option<u32>
        ensures exact { step_of self.new ≡ allowed (P.Policy.rule policy.now) e (open_orders self.old.table) }
        ensures left { result ≡ left_of e (open_orders self.old.table) }
    {
        self.tape.clear();
        let span = Span::facing(e);
        let reach = self.table.lots(span.side, span.prices);
        if !enough(e.condition, e.lots, reach) {
            return None;
        }
        Some(self.walk(policy, Terms::Entry(e.number), span, e.lots))
    }

    // The entry trades what its condition allows; the rest stays open or is withdrawn.
    pub fn enter<P: Policy>(&mut self, policy: &P, e: Incoming) -> EntryAnswer
        requires room { room_for e.limit (open_orders self.old.table) ≡ true }
        requires few { e.lots ≤ 9999 }
        ensures orders { open_orders self.new.table ≡ (matched (P.Policy.rule policy.now) e (open_orders self.old.table)).orders }
        ensures written { tape_lines self.new.tape ≡ (matched (P.Policy.rule policy.now) e (open_orders self.old.table)).tape }
        ensures answer { result ≡ entry_answer e.number (matched (P.Policy.rule policy.now) e (open_orders self.old.table)) }
    {
        match self.trade_allowed(policy, e) {
            None => EntryAnswer {
                number: e.number,
                traded: 0,
                withdrawn: e.lots,
                open: 0,
            },
            Some(left) => {
                set_rest(&mut self.table, e, left);
                settled(e, left)
            }
        }
    }
}
