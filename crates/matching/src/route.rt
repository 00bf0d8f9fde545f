// Trading with the levels of a side in turn, the best price first.
ghost use Rattle.std.specs.Prelude.{◌≡◌, ◌+◌, ◌-◌, ◌<◌, ◌≤◌, min, ◌++◌, length};
ghost use Rattle.rules.specs.Orders.{at, level, held as held_by, prices};
ghost use Rattle.rules.specs.Trades.{line, fill, serve};
ghost use Rattle.rules.specs.Sides.{other};
ghost use Rattle.rules.specs.declared.order.Kind.TheVariants.{Limit};
ghost use Rattle.rules.specs.declared.tape.Terms.TheVariants.{Opening};
ghost use Rattle.table.specs.Tables.{open_orders, tape_lines};
ghost use Rattle.matching.specs.Spans.{levels_in, lots_in};
ghost use Rattle.matching.specs.Steps.{step_of, lines_for};

use crate::floor::Floor;
use crate::span::Span;
use policy::Policy;
use rules::order::{Kind, Level, Side};
use rules::tape::Terms;
use table::tape::Tape;

// Writes the own line of an entry that traded with the side at x.
fn note_entry(tape: &mut Tape, number: u32, side: Side, x: u32, lots: u32)
    requires { length (tape_lines tape.old) < 512 }
    ensures { tape_lines tape.new ≡ tape_lines tape.old ++ line number (other side) x lots }
{
    tape.note(number, side.other(), x, lots);
}

impl Floor {
    // Trades up to `lots` of an entry with the level at x, and answers the lots traded. Its own line stands behind the
    // level's. The price comes by itself and not in a `Level`, since it is written on the tape too.
    fn meet_entry<P: Policy>(
        &mut self,
        policy: &P,
        number: u32,
        side: Side,
        x: u32,
        lots: u32,
    ) -> u32
        requires { length (tape_lines self.old.tape) + length (level side (Limit x) (open_orders self.old.table)) < 512 }
        ensures orders { open_orders self.new.table ≡ (fill (P.Policy.rule policy.now) (Opening x) side lots (Limit x) (step_of self.old)).orders }
        ensures written { tape_lines self.new.tape ≡ (fill (P.Policy.rule policy.now) (Opening x) side lots (Limit x) (step_of self.old)).tape ++ line number (other side) x result }
        ensures traded { result ≡ min lots (held_by (at side (Limit x)) (open_orders self.old.table)) }
    {
        let kind = Kind::Limit(x);
        let traded = self.trade_level(policy, x, Level { side, kind }, lots);
        note_entry(&mut self.tape, number, side, x, traded);
        traded
    }

    // Trades up to `lots` with the level at x, at the terms, and answers the lots traded.
    fn meet_level<P: Policy>(
        &mut self,
        policy: &P,
        terms: Terms,
        side: Side,
        x: u32,
        lots: u32,
    ) -> u32
        requires some { 1 ≤ length (level side (Limit x) (open_orders self.old.table)) }
        requires room { length (tape_lines self.old.tape) + lines_for terms (length (level side (Limit x) (open_orders self.old.table))) ≤ 512 }
        ensures exact { step_of self.new ≡ fill (P.Policy.rule policy.now) terms side lots (Limit x) (step_of self.old) }
        ensures traded { result ≡ min lots (held_by (at side (Limit x)) (open_orders self.old.table)) }
    {
        match terms {
            Terms::Opening(price) => {
                let kind = Kind::Limit(x);
                self.trade_level(policy, price, Level { side, kind }, lots)
            }
            Terms::Entry(number) => self.meet_entry(policy, number, side, x, lots),
        }
    }

    // Trades up to `lots` with the levels of the span, the best first, and answers the lots left.
    pub(crate) fn walk<P: Policy>(&mut self, policy: &P, terms: Terms, span: Span, lots: u32) -> u32
        requires { length (tape_lines self.old.tape) + lines_for terms (length (prices span.side (open_orders self.old.table))) ≤ 512 }
        ensures exact { step_of self.new ≡ serve (P.Policy.rule policy.now) terms span.side lots (levels_in span (open_orders self.old.table)) (step_of self.old) }
        ensures left { result ≡ lots - lots_in span (open_orders self.old.table) }
        ensures lines { length (tape_lines self.new.tape) ≤ length (tape_lines self.old.tape) + lines_for terms (length (prices span.side (open_orders self.old.table))) }
    {
        let mut left = lots;
        while let Some(x) = span.next_price(&self.table, left) {
            left -= self.meet_level(policy, terms, span.side, x, left);
        }
        left
    }
}
