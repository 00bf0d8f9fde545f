// What is wrong with a line that is not understood, in words.
use std::alloc::{AllocError, AllocFailed};
use std::fmt;

// What a word of a call stands for.
#[derive(Clone, Copy, PartialEq, Eq, Debug)]
pub enum Part {
    Policy,
    Cap,
    Minimum,
    Lots,
    Place,
    Ladder,
    Today,
    Last,
    First,
    Opening,
    Session,
    Id,
    Other,
    Side,
    Price,
    Number,
    Day,
}

impl Part {
    // The largest number that is read for the part; where a fault is printed the type that was read is no longer at hand.
    fn most(self) -> u32 {
        match self {
            Part::Id | Part::Other => u8::MAX.into(),
            Part::Today | Part::Last | Part::Day => u16::MAX.into(),
            _ => u32::MAX,
        }
    }
}

impl fmt::Display for Part {
    fn fmt<W: fmt::Write>(&self, f: &mut fmt::Formatter<W>) -> fmt::Result {
        f.write_str(match self {
            Part::Policy => "policy",
            Part::Cap => "cap",
            Part::Minimum => "minimum",
            Part::Lots => "lots",
            Part::Place => "place",
            Part::Ladder => "ladder",
            Part::Today => "today",
            Part::Last => "last",
            Part::First => "first",
            Part::Opening => "opening",
            Part::Session => "session",
            Part::Id => "id",
            Part::Other => "other",
            Part::Side => "side",
            Part::Price => "price",
            Part::Number => "number",
            Part::Day => "day",
        })
    }
}

// A word that is one of a few.
#[derive(Clone, Copy, PartialEq, Eq, Debug)]
pub enum Choice {
    Policy,
    Ladder,
    Side,
    Lifetime,
    Condition,
    // Either of the last two.
    Modifier,
}

impl Choice {
    // The words that are known. No `Display`: that says what the choice is.
    fn known(self) -> &'static str {
        match self {
            Choice::Policy => "price-time, pro-rata, favour:CAP:MIN:POLICY",
            Choice::Ladder => "securities, index, bond",
            Choice::Side => "bid, offer",
            Choice::Lifetime => "plain, gis, gtc, gtc:DAY",
            Choice::Condition => "ic, cv, mv:MIN",
            Choice::Modifier => "plain, gis, gtc, gtc:DAY, ic, cv, mv:MIN",
        }
    }
}

impl fmt::Display for Choice {
    fn fmt<W: fmt::Write>(&self, f: &mut fmt::Formatter<W>) -> fmt::Result {
        f.write_str(match self {
            Choice::Policy => "policy",
            Choice::Ladder => "ladder",
            Choice::Side => "side",
            Choice::Lifetime => "lifetime",
            Choice::Condition => "condition",
            Choice::Modifier => "lifetime or condition",
        })
    }
}

// A fault holds the word that it speaks of, which is quoted so that it stays on one line.
#[derive(Clone, Copy, PartialEq, Eq, Debug)]
pub enum Fault<'a> {
    NotText,
    UnknownCall(&'a str),
    Missing(Part),
    Spare(&'a str),
    Unknown(Choice, &'a str),
    TooManyFavours(&'a str),
    NotANumber(Part, &'a str),
    TooLarge(Part, &'a str),
    NoMemory,
}

impl fmt::Display for Fault<'_> {
    fn fmt<W: fmt::Write>(&self, f: &mut fmt::Formatter<W>) -> fmt::Result {
        match self {
            Fault::NotText => f.write_str("not text in UTF-8"),
            Fault::UnknownCall(word) => {
                write!(f, "unknown call {word:?} (optbook --help lists the calls)")
            }
            Fault::Missing(part) => write!(f, "missing word: {part}"),
            Fault::Spare(word) => write!(f, "spare word: {word:?}"),
            Fault::Unknown(choice, word) => {
                write!(f, "unknown {choice} {word:?} (known: {})", choice.known())
            }
            Fault::TooManyFavours(word) => write!(f, "more than four favours in policy {word:?}"),
            Fault::NotANumber(part, word) => write!(f, "{part} is not a number: {word:?}"),
            Fault::TooLarge(part, word) => {
                write!(f, "{part} is above {}: {word:?}", part.most())
            }
            Fault::NoMemory => f.write_str("too long for the memory there is"),
        }
    }
}

impl From<AllocError> for Fault<'_> {
    fn from(_error: AllocError) -> Self {
        Fault::NoMemory
    }
}

impl<T: Drop> From<AllocFailed<T>> for Fault<'_> {
    fn from(_error: AllocFailed<T>) -> Self {
        Fault::NoMemory
    }
}
