// What is read of a book in whichever phase. Each read matches by itself: the arms hold books of two types, and one place
// for both would need what a book holds, which only `book` reads.
ghost use Rattle.std.specs.Prelude.{◌≡◌};
ghost use Rattle.replay.specs.Books.{machine_of, opening_of, session_of};

use super::AnyBook;
use policy::Policy;
use rules::calls::{Hours, Phase};
use rules::order::Order;
use rules::tape::TapeLine;

impl<O: Policy, S: Policy> AnyBook<O, S> {
    pub fn phase(&self) -> Phase
        ensures { result ≡ (machine_of self.now).phase }
    {
        match self {
            AnyBook::Waiting(_) => Phase::PreOpen,
            AnyBook::Trading(_) => Phase::Open,
        }
    }

    pub fn hours(&self) -> Hours
        ensures { result ≡ (machine_of self.now).hours }
    {
        match self {
            AnyBook::Waiting(book) => book.hours(),
            AnyBook::Trading(book) => book.hours(),
        }
    }

    pub fn today(&self) -> u16
        ensures { result ≡ (machine_of self.now).today }
    {
        match self {
            AnyBook::Waiting(book) => book.today(),
            AnyBook::Trading(book) => book.today(),
        }
    }

    // The open orders, in the order of their entry.
    pub fn orders(&self) -> &[Order]
        ensures { result.now ≡ (machine_of self.now).orders }
    {
        match self {
            AnyBook::Waiting(book) => book.orders(),
            AnyBook::Trading(book) => book.orders(),
        }
    }

    pub fn tape(&self) -> &[TapeLine]
        ensures { result.now ≡ (machine_of self.now).tape }
    {
        match self {
            AnyBook::Waiting(book) => book.tape(),
            AnyBook::Trading(book) => book.tape(),
        }
    }

    // Takes the book apart.
    pub fn end(self) -> (O, S)
        ensures opening { result.0 ≡ opening_of self }
        ensures session { result.1 ≡ session_of self }
    {
        match self {
            AnyBook::Waiting(book) => book.end(),
            AnyBook::Trading(book) => book.end(),
        }
    }
}
