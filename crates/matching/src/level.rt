// Trading with one level.
ghost use Rattle.std.specs.Prelude.{◌≡◌, ◌+◌, ◌≤◌, min, true, length};
ghost use Rattle.policy.specs.Asked.{answered};
ghost use Rattle.policy.specs.Fair.{total};
ghost use Rattle.rules.specs.Orders.{at, level as level_of, held as held_by};
ghost use Rattle.rules.specs.Trades.{shares as shares_of, fill};
ghost use Rattle.rules.specs.declared.tape.Terms.TheVariants.{Opening};
ghost use Rattle.table.specs.Tables.{open_orders, tape_lines};
ghost use Rattle.matching.specs.Steps.{step_of};

use crate::floor::Floor;
use policy::Policy;
use rules::order::Level;
use table::table::Table;

// The lots of a level.
pub(crate) fn lots_at(table: &Table, level: Level) -> u32
    ensures { result ≡ held_by (at level.side level.kind) (open_orders table.now) }
{
    table.held(|o| o.at(level.side, level.kind))
}

// Where a queue holds more than the lots that trade with it, each place gives what the policy shares; else all it holds.
fn share_out<P: Policy>(policy: &P, queue: &[u32], held: u32, lots: u32, given: &mut [u32])
    requires answered { answered queue.now (length given.old) ≡ true }
    requires held { held ≡ total queue.now }
    requires all { given.old ≡ queue.now }
    ensures { given.new ≡ shares_of (P.Policy.rule policy.now) queue.now lots }
{
    if lots < held {
        policy::fill(policy, queue, lots, given);
    }
}

impl Floor {
    // Trades up to `lots` with a level, written at the price, and answers the lots traded. The policy is asked only where
    // the level holds more.
    pub(crate) fn trade_level<P: Policy>(
        &mut self,
        policy: &P,
        price: u32,
        level: Level,
        lots: u32,
    ) -> u32
        requires { length (tape_lines self.old.tape) + length (level_of level.side level.kind (open_orders self.old.table)) ≤ 512 }
        ensures exact { step_of self.new ≡ fill (P.Policy.rule policy.now) (Opening price) level.side lots level.kind (step_of self.old) }
        ensures traded { result ≡ min lots (held_by (at level.side level.kind) (open_orders self.old.table)) }
        ensures lines { length (tape_lines self.new.tape) ≤ length (tape_lines self.old.tape) + length (level_of level.side level.kind (open_orders self.old.table)) }
    {
        let held = lots_at(&self.table, level);
        let queue = self.table.queue(level);
        // the shares begin as the queue; its `clone` answers a Result, with an error that never comes
        let mut shares = self.table.queue(level);
        share_out(policy, &queue, held, lots, &mut shares);
        self.table.apply(level, &shares, price, &mut self.tape);
        lots.min(held)
    }
}
