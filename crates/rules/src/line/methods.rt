// What the rules ask of a line.
ghost use Rattle.std.specs.Prelude.{◌≡◌};
ghost use Rattle.rules.specs.Lines.{is_down, successor_of};

use super::Line;

impl Line {
    pub fn is_down(self) -> bool
        ensures { result ≡ is_down self }
    {
        matches!(self, Line::Down(_))
    }

    pub fn successor(self) -> Option<u8>
        ensures { result ≡ successor_of self }
    {
        match self {
            Line::Up(successor) | Line::Down(successor) => successor,
        }
    }
}
