// How an answer is printed, and how it counts.
ghost use Rattle.std.specs.Prelude.{◌≡◌, Some};
ghost use Rattle.optbook.specs.Answers.{outcome_of, call_outcome, spaced_text, entered_text, tried_text, opened_text, call_text, answer_text};

use super::Answer;
use crate::tally::Outcome;
use crate::word::Word;
use rules::calls;
use rules::calls::{EntryAnswer, OpeningAnswer, TrialAnswer};
use std::fmt;

impl Answer {
    pub fn outcome(&self) -> Outcome
        ensures { result ≡ outcome_of self.now }
    {
        match self {
            Answer::Shares(Err(_)) => Outcome::Refused,
            Answer::Called(answer) => outcome(*answer),
            _ => Outcome::Taken,
        }
    }
}

// A call that the phase does not offer counts as refused.
fn outcome(answer: calls::Answer) -> Outcome
    ensures { result ≡ call_outcome answer }
{
    match answer {
        calls::Answer::Refused(_) | calls::Answer::WrongPhase => Outcome::Refused,
        _ => Outcome::Taken,
    }
}

impl fmt::Display for Answer {
    ghost output = { λ a. Some (answer_text a) };

    fn fmt<W: fmt::Write>(&self, f: &mut fmt::Formatter<W>) -> fmt::Result {
        match self {
            Answer::Shares(Ok(shares)) => write!(f, "shares{}", Word(&shares[..])),
            Answer::Shares(Err(refusal)) => write!(f, "refused {}", refusal.number()),
            Answer::Made => write!(f, "made"),
            Answer::Shown(page) => write!(f, "{page}"),
            Answer::Called(answer) => write!(f, "{}", Word(*answer)),
        }
    }
}

// Numbers, a blank before each. No one impl for every list: of what a bound writes, the text may be none.
impl fmt::Display for Word<&[u32]> {
    ghost output = { λ w. Some (spaced_text w.0.now) };

    fn fmt<W: fmt::Write>(&self, f: &mut fmt::Formatter<W>) -> fmt::Result {
        for n in self.0 {
            write!(f, " {n}")?;
        }
        Ok(())
    }
}

// What a book answers a call.
impl fmt::Display for Word<calls::Answer> {
    ghost output = { λ w. Some (call_text w.0) };

    fn fmt<W: fmt::Write>(&self, f: &mut fmt::Formatter<W>) -> fmt::Result {
        match self.0 {
            calls::Answer::Entered(e) => write!(f, "{}", Word(e)),
            calls::Answer::Cancelled(lots) => write!(f, "cancelled {lots}"),
            calls::Answer::Reduced(lots) => write!(f, "open {lots}"),
            calls::Answer::Dropped((bids, offers)) => write!(f, "withdrawn {bids} {offers}"),
            calls::Answer::Done => write!(f, "done"),
            calls::Answer::Tried(t) => write!(f, "{}", Word(t)),
            calls::Answer::Opened(o) => write!(f, "{}", Word(o)),
            calls::Answer::Closed((bids, offers)) => write!(f, "closed withdrawn {bids} {offers}"),
            calls::Answer::Refused(refusal) => write!(f, "refused {}", refusal.number()),
            calls::Answer::WrongPhase => write!(f, "wrong phase"),
        }
    }
}

impl fmt::Display for Word<EntryAnswer> {
    ghost output = { λ w. Some (entered_text w.0) };

    fn fmt<W: fmt::Write>(&self, f: &mut fmt::Formatter<W>) -> fmt::Result {
        let EntryAnswer {
            number,
            traded,
            withdrawn,
            open,
        } = self.0;
        write!(
            f,
            "entered {number} traded {traded} withdrawn {withdrawn} open {open}"
        )
    }
}

impl fmt::Display for Word<TrialAnswer> {
    ghost output = { λ w. Some (tried_text w.0) };

    fn fmt<W: fmt::Write>(&self, f: &mut fmt::Formatter<W>) -> fmt::Result {
        let TrialAnswer { price, volume } = self.0;
        write!(f, "price {} volume {volume}", Word(price))
    }
}

impl fmt::Display for Word<OpeningAnswer> {
    ghost output = { λ w. Some (opened_text w.0) };

    fn fmt<W: fmt::Write>(&self, f: &mut fmt::Formatter<W>) -> fmt::Result {
        let OpeningAnswer {
            volume,
            total,
            withdrawn,
            price,
        } = self.0;
        write!(
            f,
            "opened volume {volume} total {total} withdrawn {withdrawn} price {}",
            Word(price)
        )
    }
}
