// What a line of a script is answered, apart from its text: a file of specs/ names it.
use crate::page::Page;
use policy::Refusal;
use rules::calls;

mod text;

#[derive(Drop)]
pub enum Answer {
    // The shares of a queue, or the refusal of a list that is none.
    Shares(Result<Vec<u32>, Refusal>),
    // A book is made.
    Made,
    Shown(Page),
    Called(calls::Answer),
}
