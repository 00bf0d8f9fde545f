// The next word of a line, by what it stands for.
use crate::fault::{Choice, Fault, Part};
use crate::numbers::{Numeric, counted};
use crate::words::{Modifier, Named, read_name};
use rules::calls::{Condition, TimeInForce};
use std::str::SplitAsciiWhitespace;

pub fn next<'a>(words: &mut SplitAsciiWhitespace<'a>, part: Part) -> Result<&'a str, Fault<'a>> {
    words.next().ok_or(Fault::Missing(part))
}

pub fn next_number<'a, T: Numeric>(
    words: &mut SplitAsciiWhitespace<'a>,
    part: Part,
) -> Result<T, Fault<'a>> {
    counted(part, next(words, part)?)
}

pub fn next_named<'a, T: Named>(
    words: &mut SplitAsciiWhitespace<'a>,
    part: Part,
) -> Result<T, Fault<'a>> {
    read_name(next(words, part)?)
}

// [LIFETIME] or [CONDITION]
pub fn next_modifier<'a, T: Modifier>(
    words: &mut SplitAsciiWhitespace<'a>,
) -> Result<T, Fault<'a>> {
    let Some(word) = words.next() else {
        return Ok(T::default());
    };
    T::written(word)?.ok_or(Fault::Unknown(T::CHOICE, word))
}

// [LIFETIME] [CONDITION]
pub fn next_modifiers<'a>(
    words: &mut SplitAsciiWhitespace<'a>,
) -> Result<(TimeInForce, Condition), Fault<'a>> {
    let Some(word) = words.next() else {
        return Ok((TimeInForce::default(), Condition::default()));
    };
    if let Some(lifetime) = TimeInForce::written(word)? {
        return Ok((lifetime, next_modifier(words)?));
    }
    let condition = Condition::written(word)?.ok_or(Fault::Unknown(Choice::Modifier, word))?;
    Ok((TimeInForce::default(), condition))
}
