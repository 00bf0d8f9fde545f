// What a line of a script asks for.
use policy::Chosen;
use rules::calls::Call;
use rules::ladder::Ladder;

// What a book is made of.
#[derive(Clone, Copy, PartialEq, Eq, Debug)]
pub struct Making {
    pub ladder: Ladder,
    pub today: u16,
    pub last: u16,
    pub first: u32,
    pub opening: Chosen,
    pub session: Chosen,
}

#[derive(Drop, PartialEq, Eq, Debug)]
pub enum Command {
    // How a policy shares lots over a queue; no book is asked.
    Share {
        policy: Chosen,
        lots: u32,
        queue: Vec<u32>,
    },
    // A new book.
    Book(Making),
    // A call of the book at hand.
    Call(Call),
    // What the book at hand holds.
    Show,
}
