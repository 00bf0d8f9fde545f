// What changes a table.
ghost use Rattle.std.specs.Prelude.{◌≡◌, ◌<◌, true, not, Bool, [], ◌∷◌, ◌++◌, map, length, take, filter, Some};
ghost use Rattle.std.specs.List.{remove};
ghost use Rattle.rules.specs.declared.order.Order.{Order};
ghost use Rattle.rules.specs.Checks.{order_of, open_lots};
ghost use Rattle.rules.specs.Lines.{drops};
ghost use Rattle.rules.specs.Opening.{turn};
ghost use Rattle.rules.specs.Orders.{on_open};
ghost use Rattle.rules.specs.Steps.{without, reduced, handed, pair_of, lapses};
ghost use Rattle.table.specs.Fits.{price_fits, fits};
ghost use Rattle.table.specs.Tables.{open_orders};
ghost use Rattle.table.specs.Tests.{Tells};

use super::Table;
use arrayvec::ArrayVec;
use rules::calls::Hours;
use rules::order::{Kind, Order, Side};

impl Table {
    pub fn new() -> Table
        ensures { open_orders result ≡ [] }
    {
        Table {
            orders: ArrayVec::new(),
        }
    }

    // One order more, behind the others.
    pub fn push(&mut self, o: Order)
        requires room { length (open_orders self.old) < 256 }
        requires fit { fits o ≡ true }
        ensures { open_orders self.new ≡ open_orders self.old ++ o ∷ [] }
    {
        self.orders.push(o);
    }

    // Takes out the orders behind the first n.
    pub fn truncate(&mut self, n: usize)
        ensures { open_orders self.new ≡ take n (open_orders self.old) }
    {
        self.orders.truncate(n);
    }

    // Takes out the order of a number.
    pub fn remove(&mut self, number: u32)
        ensures { open_orders self.new ≡ without number (open_orders self.old) }
    {
        if let Some(at) = self.place(number) {
            self.orders.remove(at);
        }
    }

    // Takes lots off the order of a number, fewer than it has.
    pub fn reduce(&mut self, number: u32, lots: u32)
        requires { lots < open_lots (order_of number (open_orders self.old)) }
        ensures { open_orders self.new ≡ reduced number lots (open_orders self.old) }
    {
        let at = self.place(number).unwrap();
        let o = self.orders[at];
        self.orders[at] = o.less(lots);
    }

    // Withdraws the orders that leave, and answers their lots, of bids and of offers.
    pub fn withdraw<F: Fn(Order) -> bool>(&mut self, leaves: F) -> (u32, u32)
        requires { F.IsAlwaysCallable leaves }
        ensures orders { (test : Order → Bool) → Tells (F.post leaves) test → open_orders self.new ≡ filter (λ o. not (test o)) (open_orders self.old) }
        ensures lots { (test : Order → Bool) → Tells (F.post leaves) test → result ≡ pair_of test (open_orders self.old) }
    {
        let bids = self.held(|o| o.side == Side::Bid && leaves(o));
        let offers = self.held(|o| o.side == Side::Offer && leaves(o));
        self.orders.retain(|o| !leaves(*o));
        (bids, offers)
    }

    // Withdraws the orders that do not outlive the line of an ID.
    pub fn withdraw_line(&mut self, id: u8) -> (u32, u32)
        ensures orders { open_orders self.new ≡ filter (λ o. not (drops id o)) (open_orders self.old) }
        ensures lots { result ≡ pair_of (drops id) (open_orders self.old) }
    {
        self.withdraw(|o| o.drops(id))
    }

    // Withdraws the On-Open orders.
    pub fn withdraw_on_open(&mut self) -> (u32, u32)
        ensures orders { open_orders self.new ≡ filter (λ o. not (on_open o)) (open_orders self.old) }
        ensures lots { result ≡ pair_of on_open (open_orders self.old) }
    {
        self.withdraw(|o| o.kind == Kind::OnOpen)
    }

    // Withdraws the orders that lapse at a close.
    pub fn withdraw_lapsed(&mut self, hours: Hours, today: u16) -> (u32, u32)
        ensures orders { open_orders self.new ≡ filter (λ o. not (lapses hours today o.lifetime)) (open_orders self.old) }
        ensures lots { result ≡ pair_of (λ o. lapses hours today o.lifetime) (open_orders self.old) }
    {
        self.withdraw(|o| o.lapses(hours, today))
    }

    // Changes every open order, to one that fits the book as well.
    pub fn change<F: Fn(Order) -> Order>(&mut self, to: F)
        requires callable { F.IsAlwaysCallable to }
        requires fit { (o r : Order) → fits o ≡ true → F.post to o r → fits r ≡ true }
        ensures { (f : Order → Order) → Tells (F.post to) f → open_orders self.new ≡ map f (open_orders self.old) }
    {
        for o in self.orders.iter_mut() {
            *o = to(*o);
        }
    }

    // The orders that do not outlive the line of an ID pass to another.
    pub fn pass(&mut self, from: u8, to: u8)
        ensures { open_orders self.new ≡ handed from (Some to) (open_orders self.old) }
    {
        self.change(|o| if o.drops(from) { o.passed(to) } else { o });
    }

    // On-Open orders become limit orders at the price.
    pub fn turn(&mut self, price: u32)
        requires { price_fits price ≡ true }
        ensures { open_orders self.new ≡ map (turn price) (open_orders self.old) }
    {
        self.change(|o| o.turned(price));
    }
}
