// The tape, apart from its methods: a file of specs/ names it.
ghost use Rattle.std.specs.Prelude.{◌≤◌, length};

use arrayvec::ArrayVec;
use rules::tape::TapeLine;

mod writes;

// The most lines of a tape: two for each order that an entry can meet.
pub const MOST_LINES: usize = 512;

// The lines, in the order of their writing.
#[derive(Drop)]
pub struct Tape {
    lines: ArrayVec<TapeLine, MOST_LINES>,
    ghost within: { length lines.items ≤ 512 },
}
