// The lines of the 64 Trading IDs, apart from their methods: a file of specs/ names them.
ghost use Rattle.std.specs.Prelude.{◌≡◌, length};

use rules::line::Line;

mod calls;

// The first line is that of ID 1.
#[derive(Drop)]
pub struct Lines {
    lines: [Line; 64],
    ghost long: { length lines ≡ 64 },
}
