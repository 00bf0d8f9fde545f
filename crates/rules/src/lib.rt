// The vocabulary of one option series, and the rules that contracts cite (specs/).
#![tactic(auto)]

pub mod calls;
pub mod incoming;
pub mod ladder;
pub mod laws;
pub mod limits;
pub mod line;
pub mod order;
pub mod refusal;
pub mod tape;
