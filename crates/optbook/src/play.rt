// Plays a script: an answer to each line that asks for something.
use crate::answer::Answer;
use crate::ledger::Balance;
use crate::run::Run;
use crate::tally::{Outcome, Tally};
use crate::word::Word;
use rules::tape::TapeLine;
use script::fault::Fault;
use script::reader::read;
use std::alloc::Global;
use std::io;
use std::io::BufRead;
use std::str::from_utf8;

// What a run comes to: how its lines are counted, and the lots of its last book, if it made one.
#[derive(Clone, Copy)]
pub struct Summary {
    pub tally: Tally,
    pub balance: Option<Balance>,
}

// The numbers of lines end below the largest, so that the counts of a tally fit.
pub fn play<R: BufRead + Drop>(rt: &HostRuntime, script: R) -> io::Result<Summary> {
    let mut tally = Tally::default();
    let mut run = Run::default();
    for (number, line) in (1..u64::MAX).zip(script.split(rt.alloc(), b'\n')) {
        tally.count(report(rt, &mut run, number, &line?)?);
    }
    let balance = run.balance();
    Ok(Summary { tally, balance })
}

// Answers the line, and says what became of it.
fn report(rt: &HostRuntime, run: &mut Run, number: u64, line: &[u8]) -> io::Result<Outcome> {
    match answer(rt.alloc(), run, line) {
        Ok(None) => Ok(Outcome::Passed),
        Ok(Some(answer)) => {
            rt.println(&answer)?;
            print_tape(rt, run.written(&answer))?;
            Ok(answer.outcome())
        }
        Err(fault) => {
            println!(rt; "line {number}: {fault}")?;
            Ok(Outcome::NotUnderstood)
        }
    }
}

fn print_tape(rt: &HostRuntime, tape: &[TapeLine]) -> io::Result<()> {
    for line in tape {
        rt.println(Word(*line))?;
    }
    Ok(())
}

// The answer to a line; none where it asks for nothing.
fn answer<'a>(heap: Global, run: &mut Run, line: &'a [u8]) -> Result<Option<Answer>, Fault<'a>> {
    let text = from_utf8(line).map_err(|_| Fault::NotText)?;
    let Some(command) = read(heap, text)? else {
        return Ok(None);
    };
    let answer = run.obey(heap, &command).map_err(|_| Fault::NoMemory)?;
    Ok(Some(answer))
}
