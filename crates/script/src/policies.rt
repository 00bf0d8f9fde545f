// The words that name a policy.
ghost use Rattle.std.specs.Prelude.{◌≡◌, IfSome, IfOk};
ghost use Rattle.script.specs.Policies.{favour_word, NamesPolicy};

use crate::fault::{Fault, Part};
use crate::numbers::counted;
use crate::words::read_name;
use policy::{Chosen, choose};
use std::alloc::Global;

// The policy that a word names: favours, if any, the outermost first, over a base.
pub fn policy<'a>(heap: Global, word: &'a str) -> Result<Chosen, Fault<'a>>
    ensures { IfOk result (λ p. NamesPolicy word.now p) }
{
    let mut favours = Vec::new(heap);
    let mut rest = word;
    while let Some((cap, minimum, below)) = favour(rest) {
        favours.push((counted(Part::Cap, cap)?, counted(Part::Minimum, minimum)?))?;
        rest = below;
    }
    choose(read_name(rest)?, &favours).ok_or(Fault::TooManyFavours(word))
}

// The cap, the minimum and the policy below, where the word is favour:CAP:MIN:POLICY.
fn favour(word: &str) -> Option<(&str, &str, &str)>
    ensures { IfSome result (λ x. word.now ≡ favour_word x.0.now x.1.now x.2.now) }
{
    let (cap, rest) = word.strip_prefix("favour:")?.split_once(':')?;
    let (minimum, below) = rest.split_once(':')?;
    Some((cap, minimum, below))
}
