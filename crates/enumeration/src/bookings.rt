// A sheet with rules over scattered spots.
use lineup::{Draft, Locked, MOST_SPOTS, Refusal, Relation, Term};
use std::alloc::{AllocError, Global};

// The spots that the rules are about, each as the group of that spot alone.
const SPOT_0: u32 = 1;

const SPOT_1: u32 = 1 << 1;

const SPOT_4: u32 = 1 << 4;

const SPOT_9: u32 = 1 << 9;

const SPOT_12: u32 = 1 << 12;

const SPOT_15: u32 = 1 << 15;

const SPOT_22: u32 = 1 << 22;

const SPOT_23: u32 = 1 << 23;

const SPOT_30: u32 = 1 << 30;

const SPOT_31: u32 = 1 << 31;

// All of them.
const EVERY_SPOT: u32 = SPOT_0
    | SPOT_1
    | SPOT_4
    | SPOT_9
    | SPOT_12
    | SPOT_15
    | SPOT_22
    | SPOT_23
    | SPOT_30
    | SPOT_31;

// The bound of every rule; the tables are about neither it nor the relation.
const BOUND: i32 = 100;

// A coefficient and its group: as a `Term` written out each would take four lines.
type Product = (i32, u32);

// A rule's number and its products.
const RULES: [(u8, &[Product]); 6] = [
    (0, &[(-7, SPOT_30)]),
    (3, &[(20, SPOT_4 | SPOT_12)]),
    (
        8,
        &[
            (30, SPOT_9),
            (-45, SPOT_1 | SPOT_4),
            (15, SPOT_4),
            (1_000_000, SPOT_12 | SPOT_30),
            (-999_999, SPOT_1 | SPOT_9 | SPOT_30),
        ],
    ),
    (
        9,
        &[
            (1, SPOT_0),
            (-1, SPOT_31),
            (2, SPOT_0 | SPOT_31),
            (-6, SPOT_0 | SPOT_15 | SPOT_31),
        ],
    ),
    (
        40,
        &[
            (-12, SPOT_22 | SPOT_23),
            (12, SPOT_23),
            (5, SPOT_0 | SPOT_1),
            (-3, SPOT_15 | SPOT_22 | SPOT_31),
            (8, SPOT_0 | SPOT_1 | SPOT_15),
        ],
    ),
    (
        63,
        &[
            (1_000_000, EVERY_SPOT),
            (-1_000_000, SPOT_1 | SPOT_22 | SPOT_30),
            (64, SPOT_0 | SPOT_9),
            (-17, SPOT_12 | SPOT_23),
            (250, SPOT_4),
            (-250, SPOT_15 | SPOT_31),
        ],
    ),
];

// Declares as many spots. Each one's house number is that of the spot.
pub fn declare_spots(draft: &mut Draft, count: u32) -> Result<(), Refusal> {
    for house in 0..count {
        draft.declare(house)?;
    }
    Ok(())
}

// The sheet with all rules, locked. What is refused is not in it.
pub fn booked_sheet(heap: Global) -> Result<Locked, AllocError> {
    let mut draft = Draft::new();
    let _ = declare_spots(&mut draft, MOST_SPOTS as u32);
    for (number, products) in RULES {
        let terms: Vec<Term> = products
            .iter()
            .map(|&(coefficient, group)| Term { coefficient, group })
            .collect(heap)?;
        let _ = draft.post(number, Relation::AtMost.number(), BOUND, &terms);
    }
    Ok(draft.lock())
}
