// A policy that is chosen when the program runs: an enum in place of a boxed policy, which would need the heap.
ghost use Rattle.std.specs.Prelude.{◌≡◌};
ghost use Rattle.policy.specs.Chosen.{base_rule, layered_rule, laid, ChosenBy};
ghost use Rattle.policy.specs.Choosing.{base_fair, layered_fair};

use crate::{Favour, Policy, PriceTime, ProRata, Refusal};

#[derive(Clone, Copy, PartialEq, Eq, Debug)]
pub enum Base {
    PriceTime,
    ProRata,
}

impl Policy for Base {
    ghost rule = { base_rule };

    ghost fair = { base_fair };

    fn share(&self, queue: &[u32], lots: u32, shares: &mut [u32]) -> Result<(), Refusal> {
        match self {
            Base::PriceTime => PriceTime.share(queue, lots, shares),
            Base::ProRata => ProRata.share(queue, lots, shares),
        }
    }
}

// A policy as it is, or with a favour over it: a type of its own, since an `impl Policy` stands on it, and a boxed policy
// would need the heap.
#[derive(Clone, Copy, PartialEq, Eq, Debug)]
pub enum Layered<P> {
    Plain(P),
    Favoured(Favour<P>),
}

impl<P: Policy> Policy for Layered<P> {
    ghost rule = { layered_rule P.Policy.rule };

    ghost fair = { layered_fair P.Policy.rule P.Policy.fair };

    fn share(&self, queue: &[u32], lots: u32, shares: &mut [u32]) -> Result<(), Refusal> {
        match self {
            Layered::Plain(p) => p.share(queue, lots, shares),
            Layered::Favoured(f) => f.share(queue, lots, shares),
        }
    }
}

// The most favours over a base.
pub const MOST_FAVOURS: usize = 4;

// A base with up to four favours over it.
pub type Chosen = Layered<Layered<Layered<Layered<Base>>>>;

// The favour at the place, if there is one, over the policy below.
fn lay<P>(below: P, favours: &[(u32, u32)], place: usize) -> Layered<P>
    ensures { result ≡ laid below favours.now place }
{
    match favours.get(place) {
        Some(&(cap, minimum)) => Layered::Favoured(Favour {
            cap,
            minimum,
            below,
        }),
        None => Layered::Plain(below),
    }
}

// The base with favours over it, each a cap and a minimum, the outermost first; none where they are too many. No loop: each
// favour makes another type.
pub fn choose(base: Base, favours: &[(u32, u32)]) -> Option<Chosen>
    ensures { ChosenBy base favours.now result }
{
    if favours.len() > MOST_FAVOURS {
        return None;
    }
    let one = lay(base, favours, 3);
    let two = lay(one, favours, 2);
    let three = lay(two, favours, 1);
    Some(lay(three, favours, 0))
}
