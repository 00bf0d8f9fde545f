// From a line of a script to what it asks for.
use crate::calls::call;
use crate::command::{Command, Making};
use crate::fault::{Fault, Part};
use crate::next::{next, next_named, next_number};
use crate::numbers::counted;
use crate::policies::policy;
use std::alloc::Global;
use std::str::SplitAsciiWhitespace;

// What a line asks for; none where the line is blank or a comment.
pub fn read(heap: Global, line: &str) -> Result<Option<Command>, Fault<'_>> {
    let mut words = line.split_ascii_whitespace();
    let Some(name) = words.next() else {
        return Ok(None);
    };
    if name.starts_with('#') {
        return Ok(None);
    }
    match name {
        // The places of a queue go on to the end of the line.
        "share" => Ok(Some(share(heap, words)?)),
        _ => {
            let command = command(heap, name, &mut words)?;
            ended(words)?;
            Ok(Some(command))
        }
    }
}

fn command<'a>(
    heap: Global,
    name: &'a str,
    words: &mut SplitAsciiWhitespace<'a>,
) -> Result<Command, Fault<'a>> {
    match name {
        "book" => Ok(Command::Book(making(heap, words)?)),
        "show" => Ok(Command::Show),
        _ => Ok(Command::Call(call(name, words)?)),
    }
}

// No word is left.
fn ended<'a>(mut words: SplitAsciiWhitespace<'a>) -> Result<(), Fault<'a>> {
    words.next().map_or(Ok(()), |word| Err(Fault::Spare(word)))
}

// share POLICY LOTS PLACE PLACE ..
fn share<'a>(heap: Global, mut words: SplitAsciiWhitespace<'a>) -> Result<Command, Fault<'a>> {
    let policy = policy(heap, next(&mut words, Part::Policy)?)?;
    let lots = next_number(&mut words, Part::Lots)?;
    let queue = words
        .map(|word| counted(Part::Place, word))
        .try_collect(heap)?;
    Ok(Command::Share {
        policy,
        lots,
        queue,
    })
}

// book LADDER TODAY LAST FIRST OPENING SESSION
fn making<'a>(heap: Global, words: &mut SplitAsciiWhitespace<'a>) -> Result<Making, Fault<'a>> {
    let ladder = next_named(words, Part::Ladder)?;
    let today = next_number(words, Part::Today)?;
    let last = next_number(words, Part::Last)?;
    let first = next_number(words, Part::First)?;
    let opening = policy(heap, next(words, Part::Opening)?)?;
    let session = policy(heap, next(words, Part::Session)?)?;
    Ok(Making {
        ladder,
        today,
        last,
        first,
        opening,
        session,
    })
}
