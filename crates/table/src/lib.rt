// The open orders of one series, its tape and its lines, in fixed places.
#![tactic(auto)]

pub mod lines;
pub mod table;
pub mod tape;
