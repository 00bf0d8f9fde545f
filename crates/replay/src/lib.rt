// A book in whichever phase, which takes any call: runs of calls, with the laws of every run.
#![tactic(auto)]

pub mod any;
mod runs;

pub use runs::replay;
