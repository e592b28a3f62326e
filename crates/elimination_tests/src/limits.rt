// Tests of the largest sheets and numbers.
use crate::desk::*;
use lineup::Refusal::*;
use lineup::Relation::*;
use lineup::*;
use std::alloc::Global;
use std::process::Abort;
use std::test::Fail;

// Spot 12 with 11 linked spots, 0 to 10, by two prices.
pub const ELEVEN_LINKS: Book = Book {
    spots: 13,
    rules: &[],
    prices: &[(1, 0x11ff), (1, 0x1600)],
};

// Spot 12 with 12 linked spots.
pub const TWELVE_LINKS: Book = Book {
    spots: 13,
    rules: &[],
    prices: &[(1, 0x11ff), (1, 0x1e00)],
};

// The same, and no line-up is lawful.
pub const TWELVE_LINKS_UNLAWFUL: Book = Book {
    spots: 13,
    rules: &[(0, Equal, 1, &[(2, 1)])],
    prices: &[(1, 0x11ff), (1, 0x1e00)],
};

// Sheets whose widest link set has 11 or 12 spots, with how many cells they need, or the refusal.
static WIDTHS: [(Book, Result<usize, Refusal>); 8] = [
    (ELEVEN_LINKS, Ok(4_096)),
    (TWELVE_LINKS, Err(TooWide)),
    (TWELVE_LINKS_UNLAWFUL, Err(TooWide)),
    // By two rules, and by a rule and a price.
    (
        Book {
            spots: 13,
            rules: &[
                (0, AtMost, 9, &[(1, 0x11ff)]),
                (1, AtMost, 9, &[(1, 0x1600)]),
            ],
            prices: &[],
        },
        Ok(4_096),
    ),
    (
        Book {
            spots: 13,
            rules: &[
                (0, AtMost, 9, &[(1, 0x11ff)]),
                (1, AtMost, 9, &[(1, 0x1e00)]),
            ],
            prices: &[],
        },
        Err(TooWide),
    ),
    (
        Book {
            spots: 13,
            rules: &[(0, AtMost, 9, &[(1, 0x11ff)])],
            prices: &[(1, 0x1e00)],
        },
        Err(TooWide),
    ),
    // By the link set of spot 13, which is linked with spot 12 and seven of its linked spots.
    (
        Book {
            spots: 14,
            rules: &[],
            prices: &[(1, 0x30ff), (1, 0x1700)],
        },
        Ok(4_608),
    ),
    (
        Book {
            spots: 14,
            rules: &[],
            prices: &[(1, 0x30ff), (1, 0x1f00)],
        },
        Err(TooWide),
    ),
];

// The sheet needs so many cells, or is refused, however many places the choice table has.
fn assert_width<R: Abort>(
    rt: &R,
    heap: Global,
    book: &Book,
    answer: Result<usize, Refusal>,
) -> Result<(), Fail> {
    for places in [0, 4_608, MOST_CELLS] {
        let mut desk = Desk::new(rt, heap, book, &[], places)?;
        match answer {
            Err(refusal) => desk.solve(Err(refusal))?,
            Ok(need) if places < need => desk.solve(Err(Short))?,
            Ok(need) => {
                desk.solve(Ok(()))?;
                assert_eq!(rt; desk.plan.need(), need);
            }
        }
    }
    Ok(())
}

#[test]
fn a_link_set_has_at_most_11_spots(rt: HostRuntime) -> Result<(), Fail> {
    assert_eq!(rt; MOST_LINKS, 11);
    for &(book, answer) in &WIDTHS {
        assert_width(&rt, rt.alloc(), &book, answer)?;
    }
    Ok(())
}

// A sheet of 32 spots, each linked with the 11 next lower ones, as far as there are so many.
fn widest_sheet<R: Abort>(rt: &R) -> Locked {
    let mut draft = draft_with_spots(rt, 32);
    assert_eq!(rt; draft.price(1, 0xffc0_0000), Ok(()));
    assert_eq!(rt; draft.price(1, 0x8030_0000), Ok(()));
    for lowest in 0..20 {
        assert_eq!(rt; draft.price(1, 0x801u32.wrapping_shl(lowest)), Ok(()));
    }
    draft.lock()
}

#[test]
fn no_sheet_needs_more_cells(rt: HostRuntime) -> Result<(), Fail> {
    assert_eq!(rt; MOST_CELLS, 45_055);
    let sheet = widest_sheet(&rt);
    let mut plan = Plan::new();
    let mut table = vec![in rt.alloc(); UNWRITTEN; MOST_CELLS - 1]?;
    assert_eq!(rt;
        solve(&sheet, &Card::new(), &mut plan, &mut table),
        Err(Short)
    );
    table.push(UNWRITTEN)?;
    assert_eq!(rt; solve(&sheet, &Card::new(), &mut plan, &mut table), Ok(()));
    assert_eq!(rt; plan.need(), MOST_CELLS);
    assert!(rt; table.iter().all(|code| *code == Code::Free.number()));
    Ok(())
}

// 32 spots that may run or not, of which some have a price of their own.
const FREE_SPOTS: Book = Book {
    spots: 32,
    rules: &[],
    prices: &[(50, 1), (-50, 1 << 16), (1, 1 << 30), (1, 1 << 31)],
};

// A line-up of the free spots, and the one that follows.
static FOLLOWING: [(Option<u32>, Option<u32>); 7] = [
    (None, Some(0)),
    (Some(0), Some(1 << 31)),
    (Some(1 << 31), Some(1 << 30)),
    (Some(3 << 30), Some(1 << 29)),
    (Some(0xffff_fffe), Some(1)),
    (Some(0x7fff_ffff), Some(0xffff_ffff)),
    (Some(0xffff_ffff), None),
];

#[test]
fn all_32_spots_are_free(rt: HostRuntime) -> Result<(), Fail> {
    let desk = Desk::solved(&rt, rt.alloc(), &FREE_SPOTS, &[], 33)?;
    desk.assert_codes(&[0; 32], &[2; 32]);
    for switches in [
        0,
        1,
        1 << 31,
        0x8000_0001,
        0x7fff_ffff,
        0xdead_beef,
        u32::MAX,
    ] {
        desk.assert_instance(switches, Ok(switches));
    }
    Ok(())
}

#[test]
fn line_ups_of_32_spots_follow_in_order(rt: HostRuntime) -> Result<(), Fail> {
    let desk = Desk::solved(&rt, rt.alloc(), &FREE_SPOTS, &[], 32)?;
    for (after, next) in FOLLOWING {
        desk.assert_next(after, Ok(next));
    }
    Ok(())
}

#[test]
fn the_first_and_last_of_32_spots_fit(rt: HostRuntime) -> Result<(), Fail> {
    let mut desk = Desk::solved(&rt, rt.alloc(), &FREE_SPOTS, &[], 33)?;
    desk.try_spot(31, Ok(true))?;
    desk.assert_instance(0, Ok(1 << 31));
    desk.try_spot(0, Ok(true))?;
    desk.assert_instance(0, Ok(1));
    desk.try_spot(32, Err(OffSheet))?;
    // No switch is beyond 32 spots.
    desk.table.truncate(31);
    desk.assert_instance(u32::MAX, Err(Short));
    desk.assert_next(Some(u32::MAX), Err(Short));
    Ok(())
}

// A rule over seven spots, all of whose 64 terms have this coefficient: all of them count where all seven run.
fn heavy_sheet<R: Abort>(
    rt: &R,
    heap: Global,
    coefficient: i32,
    relation: Relation,
    bound: i32,
) -> Result<Locked, Fail> {
    let terms: Vec<Term> = (1..=64)
        .map(|group| Term { coefficient, group })
        .collect(heap)?;
    let mut draft = draft_with_spots(rt, 7);
    assert_eq!(rt; draft.post(0, relation.number(), bound, &terms), Ok(()));
    Ok(draft.lock())
}

// A coefficient, a relation and a bound, with the first two line-ups, or the refusal.
type Heavy = (i32, Relation, i32, Result<(u32, Option<u32>), Refusal>);

static HEAVY: [Heavy; 10] = [
    (1_000_000, AtLeast, 64_000_000, Ok((127, None))),
    (1_000_000, Equal, 64_000_000, Ok((127, None))),
    (1_000_000, AtLeast, 64_000_001, Err(NoLineUp)),
    (1_000_000, AtLeast, 1_000_000_000, Err(NoLineUp)),
    (1_000_000, AtMost, 1_000_000_000, Ok((0, Some(64)))),
    (-1_000_000, AtMost, -64_000_000, Ok((127, None))),
    (-1_000_000, Equal, -64_000_000, Ok((127, None))),
    (-1_000_000, AtMost, -64_000_001, Err(NoLineUp)),
    (-1_000_000, AtMost, -1_000_000_000, Err(NoLineUp)),
    (-1_000_000, AtLeast, -1_000_000_000, Ok((0, Some(64)))),
];

#[test]
fn the_largest_sums_are_met(rt: HostRuntime) -> Result<(), Fail> {
    for &(coefficient, relation, bound, answer) in &HEAVY {
        let sheet = heavy_sheet(&rt, rt.alloc(), coefficient, relation, bound)?;
        let mut plan = Plan::new();
        let mut table = [0; 127];
        let solved = solve(&sheet, &Card::new(), &mut plan, &mut table);
        assert_eq!(rt;
            solved.err(),
            answer.err(),
            "{coefficient} {relation:?} {bound}"
        );
        if let Ok((first, second)) = answer {
            assert_eq!(rt; next(&plan, &table, None), Ok(Some(first)));
            assert_eq!(rt; next(&plan, &table, Some(first)), Ok(second));
        }
    }
    Ok(())
}

#[test]
fn a_coefficient_beyond_a_million_is_refused(rt: HostRuntime) -> Result<(), Fail> {
    let sheet = heavy_sheet(&rt, rt.alloc(), 1_000_000, AtLeast, 1)?;
    let mut draft = sheet.unlock();
    for coefficient in [1_000_001, -1_000_001] {
        let terms = [Term {
            coefficient,
            group: 1,
        }];
        assert_eq!(rt; draft.post(1, 2, 1, &terms), Err(OutOfRange));
    }
    let sheet = draft.lock();
    let mut plan = Plan::new();
    let mut table = [0; 127];
    assert_eq!(rt; solve(&sheet, &Card::new(), &mut plan, &mut table), Ok(()));
    assert_eq!(rt; next(&plan, &table, None), Ok(Some(64)));
    Ok(())
}
