// Tests of small breaks, whose choice tables can be found by hand.
use crate::desk::*;
use lineup::Pin::*;
use lineup::Refusal::*;
use lineup::Relation::*;
use lineup::*;
use std::test::Fail;

// Spots of 30, 20, 10 and 10 seconds in a break of 40.
pub const BREAK_A: Book = Book {
    spots: 4,
    rules: &[(0, AtMost, 40, &[(30, 1), (20, 2), (10, 4), (10, 8)])],
    prices: &[(50, 1), (30, 2), (20, 4), (10, 8)],
};

// Of two spots exactly one runs.
pub const ONE_OF_TWO: Book = Book {
    spots: 2,
    rules: &[(0, Equal, 1, &[(1, 1), (1, 2)])],
    prices: &[],
};

// Of two spots both run.
pub const BOTH_OF_TWO: Book = Book {
    spots: 2,
    rules: &[(0, Equal, 1, &[(1, 3)])],
    prices: &[],
};

// Twice one spot is 1, which no line-up meets.
pub const TWICE_IS_ONE: Book = Book {
    spots: 1,
    rules: &[(0, Equal, 1, &[(2, 1)])],
    prices: &[],
};

// A sheet and pins, with what solve answers, the link sets, the choice table, and what that lists.
struct Case {
    book: Book,
    pins: &'static [(u32, Pin)],
    answer: Result<(), Refusal>,
    link_sets: &'static [u32],
    codes: &'static [u8],
    listed: &'static [u32],
}

static CASES: [Case; 16] = [
    Case {
        book: BREAK_A,
        pins: &[],
        answer: Ok(()),
        link_sets: &[0, 1, 3, 7],
        codes: &[2, 2, 0, 2, 2, 2, 3, 2, 2, 2, 3, 2, 0, 2, 3],
        listed: &[0, 8, 4, 12, 2, 10, 6, 14, 1, 9, 5],
    },
    Case {
        book: BREAK_A,
        pins: &[(1, In)],
        answer: Ok(()),
        link_sets: &[0, 1, 3, 7],
        codes: &[0, 1, 3, 2, 2, 2, 3, 2, 2, 2, 3, 2, 0, 2, 3],
        listed: &[2, 10, 6, 14],
    },
    Case {
        book: BREAK_A,
        pins: &[(3, Out)],
        answer: Ok(()),
        link_sets: &[0, 1, 3, 7],
        codes: &[2, 2, 0, 2, 2, 2, 3, 0, 0, 0, 3, 0, 0, 0, 3],
        listed: &[0, 4, 2, 6, 1, 5],
    },
    Case {
        book: BREAK_A,
        pins: &[(0, In), (1, In)],
        answer: Err(NoLineUp),
        link_sets: &[0, 1, 3, 7],
        codes: &[3, 1, 3, 2, 2, 2, 3, 2, 2, 2, 3, 2, 0, 2, 3],
        listed: &[2, 10, 6, 14],
    },
    Case {
        book: ONE_OF_TWO,
        pins: &[],
        answer: Ok(()),
        link_sets: &[0, 1],
        codes: &[2, 1, 0],
        listed: &[2, 1],
    },
    Case {
        book: BOTH_OF_TWO,
        pins: &[],
        answer: Ok(()),
        link_sets: &[0, 1],
        codes: &[1, 3, 1],
        listed: &[3],
    },
    Case {
        book: TWICE_IS_ONE,
        pins: &[],
        answer: Err(NoLineUp),
        link_sets: &[0],
        codes: &[3],
        listed: &[0],
    },
    // At least one of two.
    Case {
        book: Book {
            spots: 2,
            rules: &[(63, AtLeast, 1, &[(1, 1), (1, 2)])],
            prices: &[],
        },
        pins: &[],
        answer: Ok(()),
        link_sets: &[0, 1],
        codes: &[2, 1, 2],
        listed: &[2, 1, 3],
    },
    // Two that run together.
    Case {
        book: Book {
            spots: 2,
            rules: &[(0, Equal, 0, &[(1, 1), (-1, 2)])],
            prices: &[],
        },
        pins: &[],
        answer: Ok(()),
        link_sets: &[0, 1],
        codes: &[2, 0, 1],
        listed: &[0, 3],
    },
    // Two that nothing is asked of, and two that a price alone joins.
    Case {
        book: Book {
            spots: 2,
            rules: &[],
            prices: &[],
        },
        pins: &[],
        answer: Ok(()),
        link_sets: &[0, 0],
        codes: &[2, 2],
        listed: &[0, 2, 1, 3],
    },
    Case {
        book: Book {
            spots: 2,
            rules: &[],
            prices: &[(5, 3)],
        },
        pins: &[],
        answer: Ok(()),
        link_sets: &[0, 1],
        codes: &[2, 2, 2],
        listed: &[0, 2, 1, 3],
    },
    // At most one of the spots around a free one.
    Case {
        book: Book {
            spots: 3,
            rules: &[(0, AtMost, 1, &[(1, 1), (1, 4)])],
            prices: &[],
        },
        pins: &[],
        answer: Ok(()),
        link_sets: &[0, 0, 1],
        codes: &[2, 2, 2, 0],
        listed: &[0, 4, 2, 6, 1, 3],
    },
    // One of each two neighbours, and the same with the last spot held in.
    Case {
        book: Book {
            spots: 3,
            rules: &[
                (0, Equal, 1, &[(1, 1), (1, 2)]),
                (1, Equal, 1, &[(1, 2), (1, 4)]),
            ],
            prices: &[],
        },
        pins: &[],
        answer: Ok(()),
        link_sets: &[0, 1, 2],
        codes: &[2, 1, 0, 1, 0],
        listed: &[2, 5],
    },
    Case {
        book: Book {
            spots: 3,
            rules: &[
                (0, Equal, 1, &[(1, 1), (1, 2)]),
                (1, Equal, 1, &[(1, 2), (1, 4)]),
            ],
            prices: &[],
        },
        pins: &[(2, In)],
        answer: Ok(()),
        link_sets: &[0, 1, 2],
        codes: &[1, 3, 0, 1, 3],
        listed: &[5],
    },
    // Not all three.
    Case {
        book: Book {
            spots: 3,
            rules: &[(0, AtMost, 0, &[(1, 7)])],
            prices: &[],
        },
        pins: &[],
        answer: Ok(()),
        link_sets: &[0, 1, 3],
        codes: &[2, 2, 2, 2, 2, 2, 0],
        listed: &[0, 4, 2, 6, 1, 5, 3],
    },
    // Two rules of which the first is about the lower spot alone, and no line-up meets both.
    Case {
        book: Book {
            spots: 2,
            rules: &[(0, Equal, 1, &[(1, 1)]), (1, Equal, 0, &[(1, 1), (1, 2)])],
            prices: &[],
        },
        pins: &[],
        answer: Err(NoLineUp),
        link_sets: &[0, 1],
        codes: &[3, 0, 3],
        listed: &[0],
    },
];

#[test]
fn a_break_has_its_choice_table(rt: HostRuntime) -> Result<(), Fail> {
    for case in &CASES {
        let mut desk = Desk::new(&rt, rt.alloc(), &case.book, case.pins, 50)?;
        desk.solve(case.answer)?;
        desk.assert_codes(case.link_sets, case.codes);
        desk.assert_lists(case.listed);
    }
    Ok(())
}

// The line-up of each group of spots as switches.
static INSTANCES: [u32; 16] = [0, 1, 2, 1, 4, 5, 6, 5, 8, 9, 10, 9, 12, 5, 14, 5];

#[test]
fn switches_choose_a_line_up(rt: HostRuntime) -> Result<(), Fail> {
    let desk = Desk::solved(&rt, rt.alloc(), &BREAK_A, &[], 15)?;
    for (switches, &line_up) in (0..).zip(&INSTANCES) {
        desk.assert_instance(switches, Ok(line_up));
    }
    desk.assert_instance(16, Err(OffSheet));
    Ok(())
}

#[test]
fn the_first_spot_can_still_run(rt: HostRuntime) -> Result<(), Fail> {
    // Line-up 14 fills the break without spot 0.
    let mut desk = Desk::solved(&rt, rt.alloc(), &BREAK_A, &[], 15)?;
    desk.assert_instance(14, Ok(14));
    desk.assert_next(Some(14), Ok(Some(1)));
    desk.assert_next(Some(5), Ok(None));
    desk.try_spot(0, Ok(true))?;
    desk.card = card_with(&rt, &[(1, In)]);
    desk.try_spot(0, Ok(false))
}

#[test]
fn a_sheet_without_spots_has_one_line_up(rt: HostRuntime) -> Result<(), Fail> {
    let empty = Book {
        spots: 0,
        rules: &[],
        prices: &[],
    };
    for places in [0, 1, 9] {
        let mut desk = Desk::solved(&rt, rt.alloc(), &empty, &[], places)?;
        desk.assert_codes(&[], &[]);
        desk.assert_lists(&[0]);
        desk.assert_instance(1, Err(OffSheet));
        desk.try_spot(0, Err(OffSheet))?;
    }
    Ok(())
}
