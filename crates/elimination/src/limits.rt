// The limits of elimination.

// The most spots of a link set.
pub const MOST_LINKS: u32 = 11;

// The most cells that a sheet can need: a choice table of this length is never short.
pub const MOST_CELLS: usize = 45_055;
