// How many answers agree.
use std::fmt;

// How many answers were asked for, and how many agreed.
#[derive(Default, Clone, Copy)]
pub struct Tally {
    agreed: u32,
    asked: u32,
}

impl Tally {
    pub fn add(&mut self, agrees: bool) {
        self.agreed = self.agreed.wrapping_add(u32::from(agrees));
        self.asked = self.asked.wrapping_add(1);
    }
}

impl fmt::Display for Tally {
    fn fmt<W: fmt::Write>(&self, f: &mut fmt::Formatter<W>) -> fmt::Result {
        let agreed = self.agreed;
        let asked = self.asked;
        write!(f, "{agreed} of {asked}")
    }
}
