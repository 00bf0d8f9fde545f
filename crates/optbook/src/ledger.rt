// The lots of a book, counted call by call for the summary. Counts stop at the largest that there is.
mod counts;

pub use counts::open_lots;

#[derive(Clone, Copy, Default)]
pub struct Ledger {
    // The volumes of the entries that were taken.
    pub accepted: u64,
    pub withdrawn: u64,
    // The lots of bids, and of offers, that traded.
    pub bought: u64,
    pub sold: u64,
}

// A ledger with what the book still holds.
#[derive(Clone, Copy)]
pub struct Balance {
    pub ledger: Ledger,
    pub open: u64,
}
