// How a book trades: the volume and the price of its opening, the trades with its levels, the opening, and an entry in
// session.
#![tactic(auto)]

mod entry;
mod floor;
mod level;
mod opening;
mod pricing;
mod route;
mod span;

pub use floor::Floor;
pub use pricing::{price, volume};
