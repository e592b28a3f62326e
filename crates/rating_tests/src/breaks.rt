// Tests of small breaks, whose figures and best line-ups can be found by hand.
use crate::desk::*;
use fewest_clashes::FewestClashes;
use lineup::Pin::*;
use lineup::Relation::*;
use lineup::*;
use std::test::Fail;

// Spots of 30, 20, 10 and 10 seconds in a break of 40.
pub const BREAK_A: Book = Book {
    spots: 4,
    rules: &[(0, AtMost, 40, &[(30, 1), (20, 2), (10, 4), (10, 8)])],
    prices: &[(50, 1), (30, 2), (20, 4), (10, 8)],
};

// Twice one spot is 1, which no line-up meets.
pub const TWICE_IS_ONE: Book = Book {
    spots: 1,
    rules: &[(0, Equal, 1, &[(2, 1)])],
    prices: &[(5, 1)],
};

// No spots, and so one line-up, which runs nothing.
const NO_SPOTS: Book = Book {
    spots: 0,
    rules: &[],
    prices: &[],
};

// Three spots of which nothing is asked.
const THREE_SPOTS: Book = Book {
    spots: 3,
    rules: &[],
    prices: &[],
};

// Two spots that pay less together.
const RIVALS: Book = Book {
    spots: 2,
    rules: &[],
    prices: &[(5, 1), (4, 2), (-7, 3)],
};

// Three spots that each cost something, and pay together.
const BUNDLE: Book = Book {
    spots: 3,
    rules: &[],
    prices: &[(-3, 1), (10, 7), (-3, 2), (-3, 4)],
};

// A spot that costs.
const COST: Book = Book {
    spots: 1,
    rules: &[],
    prices: &[(-5, 1)],
};

// A spot that pays what it costs beside another.
const EVEN: Book = Book {
    spots: 2,
    rules: &[],
    prices: &[(5, 1), (-5, 3)],
};

// Of two spots that pay the same exactly one runs.
const EQUAL_SPOTS: Book = Book {
    spots: 2,
    rules: &[(0, Equal, 1, &[(1, 1), (1, 2)])],
    prices: &[(5, 1), (5, 2)],
};

// At least 30 seconds: a dear spot alone, or two that are less dear.
const AT_LEAST_30: Book = Book {
    spots: 3,
    rules: &[(0, AtLeast, 30, &[(30, 1), (15, 2), (15, 4)])],
    prices: &[(30, 1), (20, 2), (20, 4)],
};

// A dear spot, and of two others, which it has nothing to do with, exactly one.
const TWO_PARTS: Book = Book {
    spots: 3,
    rules: &[(0, Equal, 1, &[(1, 2), (1, 4)])],
    prices: &[(50, 1), (20, 2), (30, 4)],
};

// A sheet and pins. How many line-ups are lawful, and the largest sum; and the figure and the line-up that best answers under each ranked rating.
struct Case {
    book: Book,
    pins: &'static [(u32, Pin)],
    count: u64,
    sum: i64,
    takings: (u64, u32),
    mildest: (u32, u32),
    clashes: (u32, u32),
}

static CASES: [Case; 19] = [
    // Spots 0 and 2 fill the break, and no other line-up pays as much.
    Case {
        book: BREAK_A,
        pins: &[],
        count: 11,
        sum: 70,
        takings: (70, 5),
        mildest: (0, 0),
        clashes: (0, 0),
    },
    Case {
        book: BREAK_A,
        pins: &[(1, In)],
        count: 4,
        sum: 60,
        takings: (60, 14),
        mildest: (30, 2),
        clashes: (1, 2),
    },
    // Line-ups 14 and 9 both pay 60: spot 0 stays out.
    Case {
        book: BREAK_A,
        pins: &[(3, In)],
        count: 5,
        sum: 60,
        takings: (60, 14),
        mildest: (10, 8),
        clashes: (1, 8),
    },
    Case {
        book: BREAK_A,
        pins: &[(0, Out), (2, In)],
        count: 4,
        sum: 60,
        takings: (60, 14),
        mildest: (20, 4),
        clashes: (1, 4),
    },
    Case {
        book: NO_SPOTS,
        pins: &[],
        count: 1,
        sum: 0,
        takings: (0, 0),
        mildest: (0, 0),
        clashes: (0, 0),
    },
    Case {
        book: THREE_SPOTS,
        pins: &[],
        count: 8,
        sum: 0,
        takings: (0, 0),
        mildest: (0, 0),
        clashes: (0, 0),
    },
    Case {
        book: THREE_SPOTS,
        pins: &[(1, In)],
        count: 4,
        sum: 0,
        takings: (0, 2),
        mildest: (0, 2),
        clashes: (0, 2),
    },
    // 5 alone, 4 alone, 2 together. Under takings the -7 that does not run is a 7.
    Case {
        book: RIVALS,
        pins: &[],
        count: 4,
        sum: 5,
        takings: (12, 1),
        mildest: (0, 0),
        clashes: (0, 0),
    },
    Case {
        book: RIVALS,
        pins: &[(1, In)],
        count: 2,
        sum: 4,
        takings: (11, 2),
        mildest: (4, 2),
        clashes: (1, 2),
    },
    Case {
        book: RIVALS,
        pins: &[(0, In), (1, In)],
        count: 1,
        sum: 2,
        takings: (9, 3),
        mildest: (5, 3),
        clashes: (2, 3),
    },
    Case {
        book: BUNDLE,
        pins: &[],
        count: 8,
        sum: 1,
        takings: (10, 7),
        mildest: (0, 0),
        clashes: (0, 0),
    },
    Case {
        book: BUNDLE,
        pins: &[(0, In), (1, Out)],
        count: 2,
        sum: -3,
        takings: (6, 1),
        mildest: (0, 1),
        clashes: (0, 1),
    },
    Case {
        book: COST,
        pins: &[],
        count: 2,
        sum: 0,
        takings: (5, 0),
        mildest: (0, 0),
        clashes: (0, 0),
    },
    Case {
        book: COST,
        pins: &[(0, In)],
        count: 1,
        sum: -5,
        takings: (0, 1),
        mildest: (0, 1),
        clashes: (0, 1),
    },
    // Where both values are equal best takes out.
    Case {
        book: EVEN,
        pins: &[(1, In)],
        count: 2,
        sum: 0,
        takings: (5, 2),
        mildest: (0, 2),
        clashes: (0, 2),
    },
    Case {
        book: EQUAL_SPOTS,
        pins: &[],
        count: 2,
        sum: 5,
        takings: (5, 2),
        mildest: (5, 2),
        clashes: (1, 2),
    },
    // Each rating has another best line-up.
    Case {
        book: AT_LEAST_30,
        pins: &[],
        count: 5,
        sum: 70,
        takings: (70, 7),
        mildest: (20, 6),
        clashes: (1, 1),
    },
    // Each part is as mild as it can be, also where the other part has the larger amount.
    Case {
        book: TWO_PARTS,
        pins: &[(0, In)],
        count: 2,
        sum: 80,
        takings: (80, 5),
        mildest: (50, 3),
        clashes: (2, 5),
    },
    Case {
        book: TWO_PARTS,
        pins: &[],
        count: 4,
        sum: 80,
        takings: (80, 5),
        mildest: (20, 2),
        clashes: (1, 4),
    },
];

#[test]
fn a_break_has_its_count_and_takings(rt: HostRuntime) -> Result<(), Fail> {
    for case in &CASES {
        let mut desk = Desk::new(&rt, rt.alloc(), &case.book, case.pins, (20, 20))?;
        desk.rate(&Count, Ok(case.count))?;
        desk.takings(Ok(case.sum))?;
        desk.best(&Takings, Ok(case.takings))?;
    }
    Ok(())
}

#[test]
fn a_break_has_its_mildest_line_up_and_fewest_clashes(rt: HostRuntime) -> Result<(), Fail> {
    for case in &CASES {
        let mut desk = Desk::new(&rt, rt.alloc(), &case.book, case.pins, (20, 20))?;
        desk.best(&Mildest, Ok(case.mildest))?;
        desk.best(&FewestClashes, Ok(case.clashes))?;
    }
    Ok(())
}
