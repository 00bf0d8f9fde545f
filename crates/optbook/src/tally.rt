// What became of the lines of a script, counted for the summary.
ghost use Rattle.std.specs.Prelude.{◌≡◌, ◌+◌, ◌-◌, ◌^◌, ◌<◌, ◌≤◌, Some};
ghost use Rattle.optbook.specs.Tallies.{counted, Few, summary};

use std::fmt;

#[derive(Clone, Copy)]
pub enum Outcome {
    // A blank line or a comment.
    Passed,
    Taken,
    Refused,
    NotUnderstood,
}

#[derive(Clone, Copy, Default)]
pub struct Tally {
    pub calls: u64,
    pub taken: u64,
    pub refused: u64,
    pub not_understood: u64,
}

impl Tally {
    pub fn count(&mut self, outcome: Outcome)
        requires { Few self.old (2 ^ 64 - 1) }
        ensures { self.new ≡ counted self.old outcome }
    {
        match outcome {
            Outcome::Passed => {}
            Outcome::Taken => {
                self.calls += 1;
                self.taken += 1;
            }
            Outcome::Refused => {
                self.calls += 1;
                self.refused += 1;
            }
            Outcome::NotUnderstood => self.not_understood += 1,
        }
    }
}

impl fmt::Display for Tally {
    ghost output = { λ t. Some (summary t) };

    fn fmt<W: fmt::Write>(&self, f: &mut fmt::Formatter<W>) -> fmt::Result {
        let Tally {
            calls,
            taken,
            refused,
            not_understood,
        } = *self;
        write!(
            f,
            "summary calls {calls} taken {taken} refused {refused} not-understood {not_understood}"
        )
    }
}
