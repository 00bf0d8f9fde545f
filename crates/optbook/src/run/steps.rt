// What a run does with a command.
ghost use Rattle.std.specs.Prelude.{◌≡◌};
ghost use Rattle.optbook.specs.Runs.{Obeyed, Done, Shows, balance_of, run_tape};

use super::Run;
use crate::answer::Answer;
use crate::desk::Desk;
use crate::ledger::{Balance, Ledger, open_lots};
use crate::share::share;
use rules::calls;
use rules::calls::Call;
use rules::tape::TapeLine;
use script::command::Command;
use std::alloc::{AllocError, Global};
use std::mem;

impl Run {
    // Only memory can keep a command from its answer.
    pub fn obey(&mut self, heap: Global, command: &Command) -> Result<Answer, AllocError>
        ensures { Obeyed self.old command.now result self.new }
    {
        match command {
            Command::Share {
                policy,
                lots,
                queue,
            } => share(heap, policy, *lots, queue),
            Command::Book(making) => {
                *self = Run {
                    desk: Desk::made(*making),
                    ledger: Ledger::default(),
                };
                Ok(Answer::Made)
            }
            Command::Call(call) => Ok(Answer::Called(self.send(*call))),
            Command::Show => self.show(heap),
        }
    }

    fn send(&mut self, call: Call) -> calls::Answer
        ensures { Done self.old call result self.new }
    {
        let (desk, answer) = mem::take(&mut self.desk).send(call);
        self.ledger.note(call, answer, desk.written(answer));
        self.desk = desk;
        answer
    }

    fn show(&self, heap: Global) -> Result<Answer, AllocError>
        ensures { Shows self.now result }
    {
        let page = self.desk.page(heap)?;
        Ok(page.map_or(Answer::Called(calls::Answer::WrongPhase), Answer::Shown))
    }

    // The tape that the call behind an answer wrote.
    pub fn written(&self, answer: &Answer) -> &[TapeLine]
        ensures { result.now ≡ run_tape self.now answer.now }
    {
        match answer {
            Answer::Called(answer) => self.desk.written(*answer),
            _ => &[],
        }
    }

    // What became of the lots of the last book; none where no book was made.
    pub fn balance(&self) -> Option<Balance>
        ensures { result ≡ balance_of self.now }
    {
        self.desk.book.as_ref().map(|book| Balance {
            ledger: self.ledger,
            open: open_lots(book.orders()),
        })
    }
}
