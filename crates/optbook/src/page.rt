// What a book holds, as it is shown.
use rules::calls::{Hours, Phase};
use rules::order::Order;

mod text;

#[derive(Drop)]
pub struct Page {
    pub phase: Phase,
    pub hours: Hours,
    pub today: u16,
    pub orders: Vec<Order>,
}
