// How a page is printed: a line of the book, and one for each open order.
ghost use Rattle.std.specs.Prelude.{Some};
ghost use Rattle.optbook.specs.Pages.{order_word, orders_text, page_text};

use super::Page;
use crate::word::Word;
use rules::order::Order;
use std::fmt;

impl fmt::Display for Page {
    ghost output = { λ p. Some (page_text p) };

    fn fmt<W: fmt::Write>(&self, f: &mut fmt::Formatter<W>) -> fmt::Result {
        let phase = Word(self.phase);
        let hours = Word(self.hours);
        let today = self.today;
        let orders = Word(&self.orders[..]);
        write!(f, "phase {phase} session {hours} day {today}{orders}")
    }
}

// Each order on a line of its own. No one impl for every list, as with numbers (answer/text.rt).
impl fmt::Display for Word<&[Order]> {
    ghost output = { λ w. Some (orders_text w.0.now) };

    fn fmt<W: fmt::Write>(&self, f: &mut fmt::Formatter<W>) -> fmt::Result {
        for order in self.0 {
            write!(f, "\n{}", Word(*order))?;
        }
        Ok(())
    }
}

impl fmt::Display for Word<Order> {
    ghost output = { λ w. Some (order_word w.0) };

    fn fmt<W: fmt::Write>(&self, f: &mut fmt::Formatter<W>) -> fmt::Result {
        let Order {
            number,
            id,
            side,
            kind,
            lots,
            lifetime,
        } = self.0;
        let side = Word(side);
        let price = Word(kind);
        let lifetime = Word(lifetime);
        write!(
            f,
            "order {number} id {id} {side} {price} lots {lots} {lifetime}"
        )
    }
}
