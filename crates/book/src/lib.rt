// The book of one option series.
#![tactic(auto)]

pub mod held;
pub mod phases;
pub mod stage;
mod trial;
