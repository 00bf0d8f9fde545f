// The close of what a book holds.
ghost use Rattle.rules.specs.declared.calls.Answer.TheVariants.{Closed};
ghost use Rattle.rules.specs.declared.calls.Phase.TheVariants.{PreOpen, Open};
ghost use Rattle.rules.specs.Steps.{close_book};
ghost use Rattle.book.specs.Model.{machine, Gives};

use super::Held;

impl Held {
    // Withdraws the orders that lapse, and answers their lots, of bids and of offers.
    pub(crate) fn close(&mut self) -> (u32, u32)
        ensures { Gives (close_book (machine Open self.old)) (Closed result) (machine PreOpen self.new) }
    {
        let hours = self.hours;
        let today = self.today;
        let lots = self.floor.table.withdraw_lapsed(hours, today);
        self.today = hours.next_day(today, self.last);
        self.hours = hours.next();
        lots
    }
}
