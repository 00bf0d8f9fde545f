// A run of calls.
ghost use Rattle.std.specs.Prelude.{◌≡◌, min, length};
ghost use Rattle.replay.specs.Replays.{Replayed};

use crate::any::AnyBook;
use policy::Policy;
use rules::calls::{Answer, Call};

// How many calls have a place for their answer.
fn placed(calls: &[Call], answers: &[Answer]) -> usize
    ensures { result ≡ min (length calls.now) (length answers.now) }
{
    calls.len().min(answers.len())
}

// Sends the calls in turn and writes their answers. Where there are fewer places for answers than calls, the calls
// behind them are not sent; places behind the last answer stay as they are.
pub fn replay<O: Policy, S: Policy>(
    book: AnyBook<O, S>,
    calls: &[Call],
    answers: &mut [Answer],
) -> AnyBook<O, S>
    ensures { Replayed O.Policy.rule S.Policy.rule book calls.now answers.old answers.new result }
{
    let mut book = book;
    let mut left = &calls[..placed(calls, answers)];
    // No zip with the calls: of what an adapter of `iter_mut` writes nothing is known behind the loop.
    for place in answers.iter_mut() {
        let Some((call, rest)) = left.split_first() else {
            break;
        };
        let (next, answer) = book.send(*call);
        book = next;
        *place = answer;
        left = rest;
    }
    book
}
