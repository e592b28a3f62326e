// Numbers that look random and are the same in every run.
use lineup::{MOST_ENTRIES, MOST_ENTRY};

// How far the entries of a table go, up and down from 0.
#[derive(Clone, Copy)]
pub enum Spread {
    // As far as a conversion takes them.
    Whole,
    // So far that the sum of a whole table of them is still taken.
    Small,
}

const SMALL_ENTRY: u64 = MOST_ENTRY / MOST_ENTRIES as u64;

impl Spread {
    // Brings a number down to the size of an entry.
    fn size_of(self, number: u64) -> i64 {
        let most = match self {
            Spread::Whole => MOST_ENTRY,
            Spread::Small => SMALL_ENTRY,
        };
        (number % (most + 1)) as i64
    }
}

// A generator of 64-bit numbers, splitmix64.
#[derive(Drop)]
pub struct Generator {
    state: u64,
}

impl Generator {
    pub fn new(seed: u64) -> Self {
        Generator { state: seed }
    }

    pub fn next(&mut self) -> u64 {
        self.state = self.state.wrapping_add(0x9e37_79b9_7f4a_7c15);
        let mixed = (self.state ^ self.state >> 30).wrapping_mul(0xbf58_476d_1ce4_e5b9);
        let mixed = (mixed ^ mixed >> 27).wrapping_mul(0x94d0_49bb_1331_11eb);
        mixed ^ mixed >> 31
    }

    // The sign of a number.
    fn is_negative(&mut self) -> bool {
        self.next() % 2 == 1
    }

    // An entry of either sign.
    pub fn entry(&mut self, spread: Spread) -> i64 {
        let size = spread.size_of(self.next());
        if self.is_negative() {
            size.wrapping_neg()
        } else {
            size
        }
    }

    // A number below a count: 0 where the count is 0.
    pub fn below(&mut self, count: u32) -> u32 {
        let number = self.next().checked_rem(u64::from(count)).unwrap_or(0);
        u32::try_from(number).unwrap_or(0)
    }

    // A number from 1 to 3, of either sign.
    pub fn small(&mut self) -> i32 {
        let size = i32::try_from(self.below(3)).unwrap_or(0).wrapping_add(1);
        if self.is_negative() {
            size.wrapping_neg()
        } else {
            size
        }
    }
}
