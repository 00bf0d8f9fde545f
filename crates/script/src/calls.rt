// The calls of a book, each by its name and its words.
use crate::fault::{Fault, Part};
use crate::next::{next_modifier, next_modifiers, next_named, next_number};
use rules::calls::{Call, LimitEntry, MarketEntry, OnOpenEntry, Trial};
use std::str::SplitAsciiWhitespace;

pub fn call<'a>(name: &'a str, words: &mut SplitAsciiWhitespace<'a>) -> Result<Call, Fault<'a>> {
    match name {
        "limit" => Ok(Call::EnterLimit(limit(words)?)),
        "on-open" => Ok(Call::EnterOnOpen(on_open(words)?)),
        "market" => Ok(Call::EnterMarket(market(words)?)),
        "cancel" => cancel(words),
        "reduce" => reduce(words),
        "line-down" => Ok(Call::TakeLineDown(next_number(words, Part::Id)?)),
        "line-up" => Ok(Call::BringLineUp(next_number(words, Part::Id)?)),
        "successor" => successor(words),
        "trial" => Ok(Call::Try(trial(words)?)),
        "open" => Ok(Call::OpenBook),
        "close" => Ok(Call::CloseBook),
        _ => Err(Fault::UnknownCall(name)),
    }
}

// limit ID SIDE PRICE LOTS [LIFETIME] [CONDITION]
fn limit<'a>(words: &mut SplitAsciiWhitespace<'a>) -> Result<LimitEntry, Fault<'a>> {
    let id = next_number(words, Part::Id)?;
    let side = next_named(words, Part::Side)?;
    let price = next_number(words, Part::Price)?;
    let lots = next_number(words, Part::Lots)?;
    let (lifetime, condition) = next_modifiers(words)?;
    Ok(LimitEntry {
        id,
        side,
        price,
        lots,
        lifetime,
        condition,
    })
}

// on-open ID SIDE LOTS [LIFETIME]
fn on_open<'a>(words: &mut SplitAsciiWhitespace<'a>) -> Result<OnOpenEntry, Fault<'a>> {
    let id = next_number(words, Part::Id)?;
    let side = next_named(words, Part::Side)?;
    let lots = next_number(words, Part::Lots)?;
    let lifetime = next_modifier(words)?;
    Ok(OnOpenEntry {
        id,
        side,
        lots,
        lifetime,
    })
}

// market ID SIDE LOTS [LIFETIME] [CONDITION]
fn market<'a>(words: &mut SplitAsciiWhitespace<'a>) -> Result<MarketEntry, Fault<'a>> {
    let id = next_number(words, Part::Id)?;
    let side = next_named(words, Part::Side)?;
    let lots = next_number(words, Part::Lots)?;
    let (lifetime, condition) = next_modifiers(words)?;
    Ok(MarketEntry {
        id,
        side,
        lots,
        lifetime,
        condition,
    })
}

// cancel ID NUMBER; each call has parts and a variant of its own, so `cancel` and `successor` read alike and stay two.
fn cancel<'a>(words: &mut SplitAsciiWhitespace<'a>) -> Result<Call, Fault<'a>> {
    let id = next_number(words, Part::Id)?;
    let number = next_number(words, Part::Number)?;
    Ok(Call::Cancel { id, number })
}

// reduce ID NUMBER LOTS
fn reduce<'a>(words: &mut SplitAsciiWhitespace<'a>) -> Result<Call, Fault<'a>> {
    let id = next_number(words, Part::Id)?;
    let number = next_number(words, Part::Number)?;
    let lots = next_number(words, Part::Lots)?;
    Ok(Call::Reduce { id, number, lots })
}

// successor ID OTHER
fn successor<'a>(words: &mut SplitAsciiWhitespace<'a>) -> Result<Call, Fault<'a>> {
    let id = next_number(words, Part::Id)?;
    let successor = next_number(words, Part::Other)?;
    Ok(Call::NameSuccessor { id, successor })
}

// trial SIDE PRICE LOTS
fn trial<'a>(words: &mut SplitAsciiWhitespace<'a>) -> Result<Trial, Fault<'a>> {
    let side = next_named(words, Part::Side)?;
    let price = next_number(words, Part::Price)?;
    let lots = next_number(words, Part::Lots)?;
    Ok(Trial { side, price, lots })
}
