// The calls of a book in whichever phase.
ghost use Rattle.rules.specs.declared.calls.Phase.TheVariants.{PreOpen, Open};
ghost use Rattle.rules.specs.declared.calls.Call.TheVariants.{OpenBook, CloseBook};
ghost use Rattle.replay.specs.Sends.{Asked, AskedEither, Stepped, Sent};

use super::AnyBook;
use book::phases::{Book, PreOpen, Session};
use book::stage::Stage;
use policy::Policy;
use rules::calls::{Answer, Call};
use rules::refusal::Refusal;

// A call that both phases offer; any other is answered `WrongPhase`.
fn ask_either<P: Stage, O: Policy, S: Policy>(
    book: &mut Book<P, O, S>,
    call: Call,
) -> Result<Answer, Refusal>
    ensures { AskedEither O.Policy.rule S.Policy.rule P.Stage.phase book.old call result book.new }
{
    match call {
        Call::Cancel { id, number } => book.cancel(id, number).map(Answer::Cancelled),
        Call::Reduce { id, number, lots } => book.reduce(id, number, lots).map(Answer::Reduced),
        Call::TakeLineDown(id) => book.line_down(id).map(Answer::Dropped),
        Call::BringLineUp(id) => book.line_up(id).map(|()| Answer::Done),
        Call::NameSuccessor { id, successor } => book
            .successor(id, successor)
            .map(|()| Answer::Done),
        _ => Ok(Answer::WrongPhase),
    }
}

// A call of a book before its opening, which it stays. An opening is not asked here.
fn ask_waiting<O: Policy, S: Policy>(
    book: &mut PreOpen<O, S>,
    call: Call,
) -> Result<Answer, Refusal>
    ensures { Asked O.Policy.rule S.Policy.rule PreOpen OpenBook book.old call result book.new }
{
    match call {
        Call::EnterLimit(entry) => book.limit(entry).map(Answer::Entered),
        Call::EnterOnOpen(entry) => book.on_open(entry).map(Answer::Entered),
        Call::Try(trial) => book.trial(trial).map(Answer::Tried),
        call => ask_either(book, call),
    }
}

// A call of a book in session, which it stays. A close is not asked here.
fn ask_trading<O: Policy, S: Policy>(
    book: &mut Session<O, S>,
    call: Call,
) -> Result<Answer, Refusal>
    ensures { Asked O.Policy.rule S.Policy.rule Open CloseBook book.old call result book.new }
{
    match call {
        Call::EnterLimit(entry) => book.limit(entry).map(Answer::Entered),
        Call::EnterMarket(entry) => book.market(entry).map(Answer::Entered),
        call => ask_either(book, call),
    }
}

impl<O: Policy, S: Policy> AnyBook<O, S> {
    // Sends a call. One that the phase does not offer changes nothing.
    pub fn send(self, call: Call) -> (AnyBook<O, S>, Answer)
        ensures { Sent O.Policy.rule S.Policy.rule self call result.1 result.0 }
    {
        self.step(call)
    }

    // The step alone; `send` adds what follows from it for a run of calls.
    fn step(self, call: Call) -> (AnyBook<O, S>, Answer)
        ensures { Stepped O.Policy.rule S.Policy.rule self call result.1 result.0 }
    {
        match self {
            AnyBook::Waiting(mut book) => match call {
                Call::OpenBook => {
                    let (book, answer) = book.open();
                    (AnyBook::Trading(book), Answer::Opened(answer))
                }
                call => {
                    let answer = ask_waiting(&mut book, call).unwrap_or_else(Answer::Refused);
                    (AnyBook::Waiting(book), answer)
                }
            },
            AnyBook::Trading(mut book) => match call {
                Call::CloseBook => {
                    let (book, lots) = book.close();
                    (AnyBook::Waiting(book), Answer::Closed(lots))
                }
                call => {
                    let answer = ask_trading(&mut book, call).unwrap_or_else(Answer::Refused);
                    (AnyBook::Trading(book), answer)
                }
            },
        }
    }
}
