// The limits of a sheet.

pub const MOST_SPOTS: usize = 32;

// The term places.
pub const PLACE_COUNT: usize = 512;

// Rules are numbered from 0, below this.
pub const RULE_NUMBERS: usize = 64;

pub const MOST_PRICES: usize = 128;

// The largest size of an amount.
pub const MOST_AMOUNT: u32 = 1_000_000;
