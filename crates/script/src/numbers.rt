// The numbers of a script: decimal digits and nothing else, no sign.
ghost use Rattle.std.specs.Prelude.{◌≡◌, ℕ, Result, IfOk, Ok, Err};
ghost use Rattle.std.specs.declared.num.TryFromIntError.{TryFromIntError};
ghost use Rattle.script.specs.Numbers.{is_numeral, number_read};

use crate::fault::{Fault, Part};
use std::num::TryFromIntError;

// Why a word is not read as a number.
#[derive(Clone, Copy, PartialEq, Eq, Debug)]
pub enum Unread {
    NotDigits,
    TooLarge,
}

// A type whose values a script writes in digits.
pub trait Numeric: TryFrom<u32, Error = TryFromIntError> {
    // The number that a value is.
    ghost value: { Self → ℕ };

    // A number that fits the type becomes the value that it is.
    ghost fits: { (n : ℕ) (r : Result Self TryFromIntError) → Self.try_from_gives n r → IfOk r (λ x. value x ≡ n) };
}

impl Numeric for u8 {
    ghost value = { λ n. n };

    ghost fits = { λ n. elim [ Ok x ↦ λ h. h.1 | Err e ↦ λ h. tt ] };
}

impl Numeric for u16 {
    ghost value = { λ n. n };

    ghost fits = { λ n. elim [ Ok x ↦ λ h. h.1 | Err e ↦ λ h. tt ] };
}

impl Numeric for u32 {
    ghost value = { λ n. n };

    ghost fits = { λ n. elim [ Ok x ↦ λ h. h.1 | Err e ↦ λ h. tt ] };
}

// Whether the word is one digit or more, and nothing else.
fn numeral(word: &str) -> bool
    ensures { result ≡ is_numeral word.now }
{
    !word.is_empty() && word.as_bytes().iter().all(u8::is_ascii_digit)
}

fn number(word: &str) -> Result<u32, Unread>
    ensures { result ≡ number_read word.now }
{
    if !numeral(word) {
        return Err(Unread::NotDigits);
    }
    word.parse().map_err(|_| Unread::TooLarge)
}

// The number that the word writes.
pub fn counted<'a, T: Numeric>(part: Part, word: &'a str) -> Result<T, Fault<'a>>
    ensures { IfOk result (λ n. number_read word.now ≡ Ok (T.value n)) }
{
    let n = number(word).map_err(|unread| match unread {
        Unread::NotDigits => Fault::NotANumber(part, word),
        Unread::TooLarge => Fault::TooLarge(part, word),
    })?;
    T::try_from(n).map_err(|_| Fault::TooLarge(part, word))
}
