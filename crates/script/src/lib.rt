// From the lines of a script to what they ask for.
#![tactic(auto)]

mod calls;
pub mod command;
pub mod fault;
mod next;
mod numbers;
mod policies;
pub mod reader;
mod words;
