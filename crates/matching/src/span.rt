// Some prices of one side, apart from their methods: a file of specs/ names them.
use rules::order::Side;
use table::table::Prices;

mod reads;

#[derive(Clone, Copy)]
pub(crate) struct Span {
    pub(crate) side: Side,
    pub(crate) prices: Prices,
}
