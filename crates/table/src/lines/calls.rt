ghost use Rattle.std.specs.Prelude.{◌≡◌, ◌≤◌, replicate, None};
ghost use Rattle.rules.specs.declared.line.Line.TheVariants.{Up};
ghost use Rattle.rules.specs.Lines.{line_of, moved, heir};
ghost use Rattle.table.specs.Tables.{line_list};

use super::Lines;
use rules::line::{Line, LineEvent};

impl Lines {
    pub fn new() -> Lines
        ensures { line_list result ≡ replicate 64 (Up None) }
    {
        Lines {
            lines: [Line::Up(None); 64],
        }
    }

    // The line of an ID. Behind the last line every line counts as up, and 0 reads the first; no call asks for either.
    pub fn of(&self, id: u8) -> Line
        ensures { result ≡ line_of id (line_list self.now) }
    {
        let i = usize::from(id.saturating_sub(1));
        self.lines.get(i).copied().unwrap_or(Line::Up(None))
    }

    // Who takes over the orders of a line that goes down: its successor, if one is named and up.
    pub fn heir(&self, id: u8) -> Option<u8>
        ensures { result ≡ heir id (line_list self.now) }
    {
        self.of(id)
            .successor()
            .filter(|&successor| !self.of(successor).is_down())
    }

    // What a line call makes of the line of an ID: it keeps its successor until another is named.
    pub fn apply(&mut self, id: u8, event: LineEvent)
        requires low { 1 ≤ id }
        requires high { id ≤ 64 }
        ensures { line_list self.new ≡ moved id event (line_list self.old) }
    {
        let i = usize::from(id) - 1;
        match (self.lines[i], event) {
            (Line::Up(successor), LineEvent::GoesDown) => self.lines[i] = Line::Down(successor),
            (Line::Down(successor), LineEvent::ComesUp) => self.lines[i] = Line::Up(successor),
            (Line::Up(_), LineEvent::Names(other)) => self.lines[i] = Line::Up(Some(other)),
            (Line::Down(_), LineEvent::Names(other)) => self.lines[i] = Line::Down(Some(other)),
            (Line::Up(_), LineEvent::ComesUp) | (Line::Down(_), LineEvent::GoesDown) => {}
        }
    }
}
