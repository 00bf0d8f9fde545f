// The calls of the book at hand.
ghost use Rattle.optbook.specs.Desks.{Made, SentTo};

use super::Desk;
use book::phases::PreOpen;
use replay::any::AnyBook;
use rules::calls::{Answer, Call};
use script::command::Making;

impl Desk {
    pub fn made(m: Making) -> Desk
        ensures { Made m result.book }
    {
        let book = PreOpen::new(m.opening, m.session, m.ladder, m.today, m.last, m.first);
        Desk {
            book: Some(AnyBook::Waiting(book)),
        }
    }

    // The library's books take a close, but the program does not offer it: it keeps a close from its book.
    pub fn send(self, call: Call) -> (Desk, Answer)
        ensures { SentTo self.book call result.1 result.0.book }
    {
        let Desk { book } = self;
        match (book, call) {
            (None, _) => (Desk { book: None }, Answer::WrongPhase),
            (book, Call::CloseBook) => (Desk { book }, Answer::WrongPhase),
            (Some(book), call) => {
                let (book, answer) = book.send(call);
                (Desk { book: Some(book) }, answer)
            }
        }
    }
}
