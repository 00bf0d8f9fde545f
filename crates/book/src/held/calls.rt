// The calls that a book takes in either phase, and what entries share.
ghost use Rattle.std.specs.Prelude.{◌≡◌, ◌<◌, true, length};
ghost use Rattle.rules.specs.declared.calls.Phase.{Phase as PhaseOf};
ghost use Rattle.rules.specs.declared.calls.Answer.TheVariants.{Entered, Cancelled, Reduced, Dropped, Done};
ghost use Rattle.rules.specs.Steps.{lifetime_in, wait, cancel, reduce, handed, dropped_lots, take_line_down, bring_line_up, name_successor};
ghost use Rattle.table.specs.Fits.{entry_fits};
ghost use Rattle.table.specs.Tables.{open_orders};
ghost use Rattle.book.specs.Model.{machine, Gives, said};

use super::Held;
use super::checks::{outside, unless};
use rules::calls::{EntryAnswer, TimeInForce};
use rules::line::LineEvent;
use rules::order::{Kind, Lifetime, Order, Side};
use rules::refusal::Refusal;
use table::table::Table;

// The orders that do not outlive the line pass to its heir, or are withdrawn where there is none.
fn hand_over(table: &mut Table, id: u8, heir: Option<u8>) -> (u32, u32)
    ensures orders { open_orders table.new ≡ handed id heir (open_orders table.old) }
    ensures lots { result ≡ dropped_lots id heir (open_orders table.old) }
{
    match heir {
        Some(to) => {
            table.pass(id, to);
            (0, 0)
        }
        None => table.withdraw_line(id),
    }
}

impl Held {
    pub(crate) fn lifetime(&self, t: TimeInForce) -> Lifetime
        ensures { (phase : PhaseOf) → result ≡ lifetime_in (machine phase self.now) t }
    {
        match t {
            TimeInForce::Plain => Lifetime::Plain,
            TimeInForce::Gis => Lifetime::Gis,
            TimeInForce::Gtc(None) => Lifetime::Gtc(self.last),
            TimeInForce::Gtc(Some(day)) => Lifetime::Gtc(day),
        }
    }

    // Numbers an order and sets it behind the others. The checks of its two callers show what it requires. No type of a
    // checked entry could carry that: room and the next number belong to the book. The words of an entry come one by one,
    // here and at `meet`, since the entries are of different types.
    pub(crate) fn wait(
        &mut self,
        id: u8,
        side: Side,
        kind: Kind,
        lots: u32,
        t: TimeInForce,
    ) -> EntryAnswer
        requires room { length (open_orders self.old.floor.table) < 256 }
        requires number { self.old.next < 4294967295 }
        requires fit { entry_fits kind lots ≡ true }
        ensures { (phase : PhaseOf) → Gives (wait (machine phase self.old) id side kind lots t) (Entered result) (machine phase self.new) }
    {
        let number = self.next;
        let lifetime = self.lifetime(t);
        self.floor.table.push(Order {
            number,
            id,
            side,
            kind,
            lots,
            lifetime,
        });
        self.next = number + 1;
        EntryAnswer {
            number,
            traded: 0,
            withdrawn: 0,
            open: lots,
        }
    }

    pub(crate) fn cancel(&mut self, id: u8, number: u32) -> Result<u32, Refusal>
        ensures { (phase : PhaseOf) → Gives (cancel (machine phase self.old) id number) (said Cancelled result) (machine phase self.new) }
    {
        let lots = self.held_lots(id, number)?;
        self.floor.table.remove(number);
        Ok(lots)
    }

    pub(crate) fn reduce(&mut self, id: u8, number: u32, lots: u32) -> Result<u32, Refusal>
        ensures { (phase : PhaseOf) → Gives (reduce (machine phase self.old) id number lots) (said Reduced result) (machine phase self.new) }
    {
        let open = self.held_lots(id, number)?;
        unless(
            outside(1, open.saturating_sub(1), lots),
            Refusal::ReductionOutOfRange,
        )?;
        self.floor.table.reduce(number, lots);
        Ok(open - lots)
    }

    pub(crate) fn line_down(&mut self, id: u8) -> Result<(u32, u32), Refusal>
        ensures { (phase : PhaseOf) → Gives (take_line_down (machine phase self.old) id) (said Dropped result) (machine phase self.new) }
    {
        self.check_id(id)?;
        let heir = self.lines.heir(id);
        self.lines.apply(id, LineEvent::GoesDown);
        Ok(hand_over(&mut self.floor.table, id, heir))
    }

    pub(crate) fn line_up(&mut self, id: u8) -> Result<(), Refusal>
        ensures { (phase : PhaseOf) → Gives (bring_line_up (machine phase self.old) id) (said (λ _. Done) result) (machine phase self.new) }
    {
        self.check_line_up(id)?;
        self.lines.apply(id, LineEvent::ComesUp);
        Ok(())
    }

    pub(crate) fn successor(&mut self, id: u8, successor: u8) -> Result<(), Refusal>
        ensures { (phase : PhaseOf) → Gives (name_successor (machine phase self.old) id successor) (said (λ _. Done) result) (machine phase self.new) }
    {
        self.check_successor(id, successor)?;
        self.lines.apply(id, LineEvent::Names(successor));
        Ok(())
    }
}
