// The limits of one rule.

// The largest size of a coefficient.
pub const MOST_COEFFICIENT: u32 = 1_000_000;

// The most terms of a rule.
pub const MOST_TERMS: usize = 64;

// The most spots that a rule names in all, and the most of a price.
pub const MOST_NAMED: u32 = 10;

// The largest size of a bound.
pub const MOST_BOUND: u32 = 1_000_000_000;

// Relations are numbered from 0, below this.
pub const RELATION_COUNT: u8 = 3;
