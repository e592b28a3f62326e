// The calls of a day: a break of 75 seconds is booked for two rival cars, a detergent and a pair that is sold together, and at last for a late
// spot.
use lineup::{Booking, Relation, Term};

// How many seconds the break is long, and the number of the rule that says so.
const BREAK: i32 = 75;

pub const LENGTH: u8 = 0;

// Groups of one spot each, in the order of declaration. Bit i stands for spot i.
const CAR: u32 = 1;

const RIVAL: u32 = 2;

const DETERGENT: u32 = 4;

const FIRST_HALF: u32 = 8;

const SECOND_HALF: u32 = 16;

const LATE: u32 = 1 << LATE_SPOT;

// The spots that are asked about by number.
pub const CAR_SPOT: u32 = 0;

pub const LATE_SPOT: u32 = 5;

// The line-up that is to run before the late spot comes. It takes the whole break.
pub const PRESENT: u32 = CAR | DETERGENT | FIRST_HALF | SECOND_HALF;

// The group of spot 9, which nobody declares.
const STRANGER: u32 = 512;

// A sum of terms, each written as its coefficient and its group. A macro, since a constant may not call a function.
macro_rules! sum {
    ($($coefficient:literal $group:ident),*) => {
        &[$(Term { coefficient: $coefficient, group: $group }),*]
    };
}

// How long each spot is.
const SECONDS: &[Term] = sum![40 CAR, 20 RIVAL, 15 DETERGENT, 10 FIRST_HALF, 10 SECOND_HALF];

// And with the late one.
const ALL_SECONDS: &[Term] =
    sum![40 CAR, 20 RIVAL, 15 DETERGENT, 10 FIRST_HALF, 10 SECOND_HALF, 40 LATE];

// How many of the rivals run.
const RIVALS: &[Term] = sum![1 CAR, 1 RIVAL];

// How much more the first half runs than the second.
const PAIR: &[Term] = sum![1 FIRST_HALF, -1 SECOND_HALF];

// Whether the detergent runs.
const CLEAN: &[Term] = sum![1 DETERGENT];

// How many of the spots run that are sold alone.
const SINGLES: &[Term] = sum![1 CAR, 1 RIVAL, 1 DETERGENT];

// Terms that no sheet of five spots takes.
const STRANGERS: &[Term] = sum![1 CAR, 1 STRANGER];

const WEIGHTLESS: &[Term] = sum![0 CAR, 1 DETERGENT];

pub const DAY: &[Booking<'static>] = &[
    // The spots, one of them twice.
    Booking::Declare { house: 101 },
    Booking::Declare { house: 102 },
    Booking::Declare { house: 103 },
    Booking::Declare { house: 102 },
    Booking::Declare { house: 104 },
    Booking::Declare { house: 105 },
    // The length of the break, the rivals, the pair (first under a live number), and a provisional rule.
    Booking::Post {
        number: LENGTH,
        relation: Relation::AtMost as u8,
        bound: BREAK,
        terms: SECONDS,
    },
    Booking::Post {
        number: 1,
        relation: Relation::AtMost as u8,
        bound: 1,
        terms: RIVALS,
    },
    Booking::Post {
        number: 1,
        relation: Relation::Equal as u8,
        bound: 0,
        terms: PAIR,
    },
    Booking::Post {
        number: 2,
        relation: Relation::Equal as u8,
        bound: 0,
        terms: PAIR,
    },
    Booking::Post {
        number: 3,
        relation: Relation::AtLeast as u8,
        bound: 1,
        terms: CLEAN,
    },
    // A spot that is not declared, no terms, a relation that is none, and a coefficient of 0.
    Booking::Post {
        number: 4,
        relation: Relation::AtMost as u8,
        bound: 1,
        terms: STRANGERS,
    },
    Booking::Post {
        number: 7,
        relation: Relation::AtMost as u8,
        bound: BREAK,
        terms: &[],
    },
    Booking::Post {
        number: 4,
        relation: 3,
        bound: 1,
        terms: RIVALS,
    },
    Booking::Post {
        number: 4,
        relation: Relation::AtMost as u8,
        bound: 1,
        terms: WEIGHTLESS,
    },
    // The prices.
    Booking::Price {
        amount: 50,
        group: CAR,
    },
    Booking::Price {
        amount: 45,
        group: RIVAL,
    },
    Booking::Price {
        amount: 20,
        group: DETERGENT,
    },
    Booking::Price {
        amount: 15,
        group: FIRST_HALF,
    },
    Booking::Price {
        amount: 15,
        group: SECOND_HALF,
    },
    Booking::Price {
        amount: -5,
        group: DETERGENT | FIRST_HALF,
    },
    // The pair is paid for with its first half, and no price is set for no spots.
    Booking::Price {
        amount: 30,
        group: FIRST_HALF,
    },
    Booking::Price {
        amount: 0,
        group: SECOND_HALF,
    },
    Booking::Price {
        amount: 10,
        group: 0,
    },
    // The provisional rule ends, once, and a late one takes its number.
    Booking::Withdraw { number: 3 },
    Booking::Withdraw { number: 3 },
    Booking::Withdraw { number: 64 },
    Booking::Post {
        number: 3,
        relation: Relation::AtLeast as u8,
        bound: 1,
        terms: SINGLES,
    },
    // The sheet is locked, and takes no more.
    Booking::Lock,
    Booking::Post {
        number: 4,
        relation: Relation::AtMost as u8,
        bound: 1,
        terms: RIVALS,
    },
    // A late spot comes: the sheet is unlocked for it, and the length of the break is posted with it.
    Booking::Unlock,
    Booking::Declare { house: 106 },
    Booking::Withdraw { number: LENGTH },
    Booking::Post {
        number: LENGTH,
        relation: Relation::AtMost as u8,
        bound: BREAK,
        terms: ALL_SECONDS,
    },
    Booking::Price {
        amount: 60,
        group: LATE,
    },
    Booking::Lock,
];
