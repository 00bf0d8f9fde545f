// The words that stand for one of a few things.
ghost use Rattle.std.specs.Prelude.{◌≡◌, ℕ, List, IfSome, IfOk};
ghost use Rattle.script.specs.Modifiers.{Tagged, WritesLifetime, WritesCondition};
ghost use Rattle.script.specs.Policies.{base_name};
ghost use Rattle.script.specs.Words.{Names, ladder_name, side_name};

use crate::fault::{Choice, Fault, Part};
use crate::numbers::{Numeric, counted};
use policy::Base;
use rules::calls::{Condition, TimeInForce};
use rules::ladder::Ladder;
use rules::order::Side;

// One of a few things that each have a name.
pub trait Named: Sized {
    const CHOICE: Choice;

    ghost name: { Self → List ℕ };

    // What the word names, if it names one.
    fn named(word: &str) -> Option<Self>
        ensures { Names name word.now result };
}

impl Named for Ladder {
    const CHOICE: Choice = Choice::Ladder;

    ghost name = { ladder_name };

    fn named(word: &str) -> Option<Ladder> {
        match word {
            "securities" => Some(Ladder::Securities),
            "index" => Some(Ladder::Index),
            "bond" => Some(Ladder::Bond),
            _ => None,
        }
    }
}

impl Named for Side {
    const CHOICE: Choice = Choice::Side;

    ghost name = { side_name };

    fn named(word: &str) -> Option<Side> {
        match word {
            "bid" => Some(Side::Bid),
            "offer" => Some(Side::Offer),
            _ => None,
        }
    }
}

impl Named for Base {
    const CHOICE: Choice = Choice::Policy;

    ghost name = { base_name };

    fn named(word: &str) -> Option<Base> {
        match word {
            "price-time" => Some(Base::PriceTime),
            "pro-rata" => Some(Base::ProRata),
            _ => None,
        }
    }
}

// What the word names, which has to be one of the things.
pub fn read_name<T: Named>(word: &str) -> Result<T, Fault<'_>>
    ensures { IfOk result (λ x. word.now ≡ T.name x) }
{
    T::named(word).ok_or(Fault::Unknown(T::CHOICE, word))
}

// What may stand at the end of a call; the default where it does not.
pub trait Modifier: Default {
    const CHOICE: Choice;

    // That the word writes the modifier.
    ghost writes: { List ℕ → Self → Type 0 };

    // The modifier that the word writes; none where it is no such modifier.
    fn written(word: &str) -> Result<Option<Self>, Fault<'_>>
        ensures { IfOk result (λ o. IfSome o (writes word.now)) };
}

// plain, gis, gtc or gtc:DAY
impl Modifier for TimeInForce {
    const CHOICE: Choice = Choice::Lifetime;

    ghost writes = { WritesLifetime };

    fn written(word: &str) -> Result<Option<TimeInForce>, Fault<'_>> {
        match word {
            "plain" => Ok(Some(TimeInForce::Plain)),
            "gis" => Ok(Some(TimeInForce::Gis)),
            "gtc" => Ok(Some(TimeInForce::Gtc(None))),
            _ => Ok(tagged("gtc:", Part::Day, word)?.map(|day| TimeInForce::Gtc(Some(day)))),
        }
    }
}

// ic, cv or mv:MIN
impl Modifier for Condition {
    const CHOICE: Choice = Choice::Condition;

    ghost writes = { WritesCondition };

    fn written(word: &str) -> Result<Option<Condition>, Fault<'_>> {
        match word {
            "ic" => Ok(Some(Condition::Ic)),
            "cv" => Ok(Some(Condition::Cv)),
            _ => Ok(tagged("mv:", Part::Minimum, word)?.map(Condition::Mv)),
        }
    }
}

// The number behind the prefix; none where the word has another beginning.
fn tagged<'a, T: Numeric>(prefix: &str, part: Part, word: &'a str) -> Result<Option<T>, Fault<'a>>
    ensures { IfOk result (λ o. IfSome o (λ n. Tagged prefix.now word.now (T.value n))) }
{
    word.strip_prefix(prefix)
        .map(|digits| counted(part, digits))
        .transpose()
}
