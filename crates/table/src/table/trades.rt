// What a trade with a level does to a table and writes on the tape.
ghost use Rattle.std.specs.Prelude.{◌≡◌, ◌+◌, ◌<◌, ◌≤◌, ◌++◌, length};
ghost use Rattle.policy.specs.Fair.{Within};
ghost use Rattle.rules.specs.Orders.{level as level_of, queue as queue_of};
ghost use Rattle.rules.specs.Trades.{less, taken, standing, line, lines};
ghost use Rattle.table.specs.Tables.{open_orders, tape_lines};

use super::Table;
use crate::tape::Tape;
use arrayvec::ArrayVec;
use policy::MOST_PLACES;
use rules::order::{Level, Order};

// Takes a share off an order, and writes its line.
fn trade(o: Order, share: u32, price: u32, tape: &mut Tape) -> Order
    requires { length (tape_lines tape.old) < 512 }
    ensures left { result ≡ less o share }
    ensures written { tape_lines tape.new ≡ tape_lines tape.old ++ line o.number o.side price share }
{
    tape.note(o.number, o.side, price, share);
    o.less(share)
}

// Takes the shares off the orders of a level, in their order, and writes a line for each share. No zip with the orders of
// the level: of what an adapter of `iter_mut` writes nothing is known behind the loop.
fn take_off(orders: &mut [Order], level: Level, shares: &[u32], price: u32, tape: &mut Tape)
    requires covered { Within (queue_of level.side level.kind orders.old) shares.now }
    requires room { length (tape_lines tape.old) + length shares.now ≤ 512 }
    ensures orders { orders.new ≡ taken level.side level.kind shares.now orders.old }
    ensures written { tape_lines tape.new ≡ tape_lines tape.old ++ lines price (level_of level.side level.kind orders.old) shares.now }
{
    let mut left = shares;
    for o in orders.iter_mut() {
        if o.at(level.side, level.kind) {
            let (share, rest) = left.split_first().unwrap();
            *o = trade(*o, *share, price, tape);
            left = rest;
        }
    }
}

impl Table {
    // The lots of a level's orders, earliest entry first. No `collect`: into an ArrayVec it asks for an allocator, and
    // answers a Result.
    pub fn queue(&self, level: Level) -> ArrayVec<u32, MOST_PLACES>
        ensures { result.items ≡ queue_of level.side level.kind (open_orders self.now) }
    {
        let mut queue = ArrayVec::new();
        for o in self.orders.iter() {
            if o.at(level.side, level.kind) {
                queue.push(o.lots);
            }
        }
        queue
    }

    // Trades the shares with a level at a price: its orders have that many lots less, those without lots are gone, and
    // the tape has their lines.
    pub fn apply(&mut self, level: Level, shares: &[u32], price: u32, tape: &mut Tape)
        requires covered { Within (queue_of level.side level.kind (open_orders self.old)) shares.now }
        requires room { length (tape_lines tape.old) + length shares.now ≤ 512 }
        ensures orders { open_orders self.new ≡ standing (taken level.side level.kind shares.now (open_orders self.old)) }
        ensures written { tape_lines tape.new ≡ tape_lines tape.old ++ lines price (level_of level.side level.kind (open_orders self.old)) shares.now }
    {
        take_off(&mut self.orders, level, shares, price, tape);
        self.orders.retain(|o| o.lots > 0);
    }
}
