// The calls on a sheet as data, with their answers.
use terms::{Refusal, Term};

// A call on a sheet with its arguments, which nobody has screened: so a relation is the number that the caller gave, and may be one that no relation
// has. The arguments stand one by one, so that a call as data reads like the call by name.
#[derive(Clone, Copy, PartialEq, Eq, Debug)]
pub enum Booking<'a> {
    Declare {
        house: u32,
    },
    Post {
        number: u8,
        relation: u8,
        bound: i32,
        terms: &'a [Term],
    },
    Price {
        amount: i32,
        group: u32,
    },
    Withdraw {
        number: u8,
    },
    Lock,
    Unlock,
}

// What a call answered. No `Result`, since one call answers a spot and the others nothing, and a call may also be passed over.
#[derive(Clone, Copy, PartialEq, Eq, Debug)]
pub enum Answer {
    // The number of the spot that was declared.
    Spot(u32),
    Done,
    Refused(Refusal),
    // The sheet's state does not have the call, so that nothing was called. This is no refusal.
    PassedOver,
}
