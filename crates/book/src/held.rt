// What a book holds in either phase beside its policies, apart from its methods: a file of specs/ names it.
use matching::Floor;
use rules::calls::Hours;
use rules::ladder::Ladder;
use table::lines::Lines;

mod calls;
mod checks;
mod closing;

#[derive(Drop)]
pub struct Held {
    pub(crate) ladder: Ladder,
    pub(crate) today: u16,
    pub(crate) last: u16,
    pub(crate) next: u32,
    pub(crate) hours: Hours,
    pub(crate) floor: Floor,
    pub(crate) lines: Lines,
}
