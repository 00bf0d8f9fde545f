ghost use Rattle.std.specs.Prelude.{◌≡◌, ◌<◌, [], ◌++◌, length};
ghost use Rattle.rules.specs.Trades.{line};
ghost use Rattle.table.specs.Tables.{tape_lines};

use super::Tape;
use arrayvec::ArrayVec;
use rules::order::Side;
use rules::tape::TapeLine;

impl Tape {
    // Like the table and the lines made by `new`: a default would be a second name for what is asked for once.
    pub fn new() -> Tape
        ensures { tape_lines result ≡ [] }
    {
        Tape {
            lines: ArrayVec::new(),
        }
    }

    pub fn lines(&self) -> &[TapeLine]
        ensures { result.now ≡ tape_lines self.now }
    {
        self.lines.as_slice()
    }

    pub fn clear(&mut self)
        ensures { tape_lines self.new ≡ [] }
    {
        self.lines.clear();
    }

    // Writes a line, or none where there are no lots. How much room is asked differs from caller to caller, so each says it;
    // no type can. The words come one by one, as the rule takes them: without lots there is no line to hand over.
    pub fn note(&mut self, number: u32, side: Side, price: u32, lots: u32)
        requires { length (tape_lines self.old) < 512 }
        ensures { tape_lines self.new ≡ tape_lines self.old ++ line number side price lots }
    {
        if lots > 0 {
            self.lines.push(TapeLine {
                number,
                side,
                price,
                lots,
            });
        }
    }
}
