// How the script format writes sides, prices, lifetimes and phases.
ghost use Rattle.std.specs.Prelude.{Some};
ghost use Rattle.optbook.specs.Words.{side_word, kind_word, price_word, lifetime_word, phase_word, hours_word, tape_word};

use rules::calls::{Hours, Phase};
use rules::order::{Kind, Lifetime, Side};
use rules::tape::TapeLine;
use std::fmt;

// A value that is printed as its word.
#[derive(Clone, Copy)]
pub struct Word<T>(pub T);

impl fmt::Display for Word<Side> {
    ghost output = { λ w. Some (side_word w.0) };

    fn fmt<W: fmt::Write>(&self, f: &mut fmt::Formatter<W>) -> fmt::Result {
        match self.0 {
            Side::Bid => write!(f, "bid"),
            Side::Offer => write!(f, "offer"),
        }
    }
}

impl fmt::Display for Word<Kind> {
    ghost output = { λ w. Some (kind_word w.0) };

    fn fmt<W: fmt::Write>(&self, f: &mut fmt::Formatter<W>) -> fmt::Result {
        match self.0 {
            Kind::Limit(price) => write!(f, "{price}"),
            Kind::OnOpen => write!(f, "on-open"),
        }
    }
}

impl fmt::Display for Word<Option<u32>> {
    ghost output = { λ w. Some (price_word w.0) };

    fn fmt<W: fmt::Write>(&self, f: &mut fmt::Formatter<W>) -> fmt::Result {
        match self.0 {
            Some(price) => write!(f, "{price}"),
            None => write!(f, "none"),
        }
    }
}

impl fmt::Display for Word<Lifetime> {
    ghost output = { λ w. Some (lifetime_word w.0) };

    fn fmt<W: fmt::Write>(&self, f: &mut fmt::Formatter<W>) -> fmt::Result {
        match self.0 {
            Lifetime::Plain => write!(f, "plain"),
            Lifetime::Gis => write!(f, "gis"),
            Lifetime::Gtc(day) => write!(f, "gtc:{day}"),
        }
    }
}

impl fmt::Display for Word<Phase> {
    ghost output = { λ w. Some (phase_word w.0) };

    fn fmt<W: fmt::Write>(&self, f: &mut fmt::Formatter<W>) -> fmt::Result {
        match self.0 {
            Phase::PreOpen => write!(f, "pre-open"),
            Phase::Open => write!(f, "open"),
        }
    }
}

impl fmt::Display for Word<Hours> {
    ghost output = { λ w. Some (hours_word w.0) };

    fn fmt<W: fmt::Write>(&self, f: &mut fmt::Formatter<W>) -> fmt::Result {
        match self.0 {
            Hours::Day => write!(f, "day"),
            Hours::Evening => write!(f, "evening"),
        }
    }
}

impl fmt::Display for Word<TapeLine> {
    ghost output = { λ w. Some (tape_word w.0) };

    fn fmt<W: fmt::Write>(&self, f: &mut fmt::Formatter<W>) -> fmt::Result {
        let TapeLine {
            number,
            side,
            price,
            lots,
        } = self.0;
        let side = Word(side);
        write!(f, "tape {number} {side} {price} {lots}")
    }
}
