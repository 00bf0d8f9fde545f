// What the book at hand holds.
ghost use Rattle.std.specs.Prelude.{◌≡◌, IfOk};
ghost use Rattle.optbook.specs.Desks.{Paged, desk_tape};

use super::Desk;
use crate::page::Page;
use replay::any::AnyBook;
use rules::calls::Answer;
use rules::tape::TapeLine;
use std::alloc::{AllocError, Global};

impl Desk {
    // A copy of what the book holds; none where there is no book.
    pub fn page(&self, heap: Global) -> Result<Option<Page>, AllocError>
        ensures { IfOk result (Paged self.now.book) }
    {
        let Some(book) = &self.book else {
            return Ok(None);
        };
        let orders = book.orders().to_vec(heap)?;
        Ok(Some(Page {
            phase: book.phase(),
            hours: book.hours(),
            today: book.today(),
            orders,
        }))
    }

    // The tape that a call wrote, by its answer: an opening and each entry in session write one.
    pub fn written(&self, answer: Answer) -> &[TapeLine]
        ensures { result.now ≡ desk_tape self.now.book answer }
    {
        match (&self.book, answer) {
            (Some(AnyBook::Trading(book)), Answer::Entered(_) | Answer::Opened(_)) => book.tape(),
            _ => &[],
        }
    }
}
