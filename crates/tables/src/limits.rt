// The limits of a table.

// The largest size of an entry of a table that is converted.
pub const MOST_ENTRY: u64 = 1_000_000_000_000_000;

// The most entries of a table: one for each line-up of 10 spots.
pub const MOST_ENTRIES: usize = 1_024;
