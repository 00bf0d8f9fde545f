// A run of a script, apart from its methods: a file of specs/ names it.
use crate::desk::Desk;
use crate::ledger::Ledger;

mod steps;

// The book at hand, and its ledger; at first no book, and an empty ledger.
#[derive(Default, Drop)]
pub struct Run {
    pub desk: Desk,
    pub ledger: Ledger,
}
