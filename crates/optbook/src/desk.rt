// The book at hand, apart from its methods: a file of specs/ names it.
use policy::Chosen;
use replay::any::AnyBook;

mod calls;
mod pages;

// No book, until a line of the script makes one.
#[derive(Default)]
pub struct Desk {
    pub book: Option<AnyBook<Chosen, Chosen>>,
}

// A book is never lost in silence, so a desk that goes takes its book apart.
impl Drop for Desk {
    fn drop(self) {
        let Desk { book } = self;
        if let Some(book) = book {
            let _ = book.end();
        }
    }
}
