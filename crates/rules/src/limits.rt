// The ranges and capacities that checks name. The largest volume is that of a queue's place, `policy::MOST_LOTS`.
pub const LOWEST_PRICE: u32 = 1;

pub const HIGHEST_PRICE: u32 = 4_000_000;

// The most orders that are open at a time: as many as the table has places.
pub const MOST_ORDERS: usize = 256;

// Trading IDs run from 1.
pub const MOST_IDS: u8 = 64;

pub const LAST_NUMBER: u32 = 4_294_967_294;

pub const FIRST_DAY: u16 = 1;

pub const LAST_DAY: u16 = 65_534;
