// The limits of a sheet file.

// The length of the longest file, in bytes.
pub const MOST_FILE: usize = 6_368;
