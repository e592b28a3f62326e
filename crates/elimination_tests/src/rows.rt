// Tests of the rows of refusals: of those that fit the uppermost is answered.
use crate::breaks::*;
use crate::desk::*;
use crate::limits::*;
use lineup::Pin::*;
use lineup::Refusal::*;
use lineup::*;
use std::test::Fail;

// A sheet, pins and how many places the choice table has.
type Asked = (Book, &'static [(u32, Pin)], usize);

// What solve answers.
static SOLVED: [(Asked, Result<(), Refusal>); 20] = [
    ((BREAK_A, &[(4, In)], 15), Err(OffSheet)),
    ((BREAK_A, &[(0, In), (31, Out)], 15), Err(OffSheet)),
    ((TWELVE_LINKS, &[(13, In)], MOST_CELLS), Err(OffSheet)),
    ((TWELVE_LINKS, &[(13, In)], 0), Err(OffSheet)),
    ((BREAK_A, &[(4, In)], 14), Err(OffSheet)),
    ((BREAK_A, &[(0, In), (1, In), (4, In)], 15), Err(OffSheet)),
    ((TWICE_IS_ONE, &[(1, Out)], 1), Err(OffSheet)),
    ((TWICE_IS_ONE, &[(1, Out)], 0), Err(OffSheet)),
    ((TWELVE_LINKS, &[], MOST_CELLS), Err(TooWide)),
    ((TWELVE_LINKS, &[], 0), Err(TooWide)),
    ((TWELVE_LINKS_UNLAWFUL, &[], MOST_CELLS), Err(TooWide)),
    ((TWELVE_LINKS_UNLAWFUL, &[], 0), Err(TooWide)),
    ((BREAK_A, &[], 14), Err(Short)),
    ((BREAK_A, &[(3, In)], 0), Err(Short)),
    ((BREAK_A, &[(0, In), (1, In)], 14), Err(Short)),
    ((TWICE_IS_ONE, &[], 0), Err(Short)),
    ((BREAK_A, &[(0, In), (1, In)], 15), Err(NoLineUp)),
    ((TWICE_IS_ONE, &[], 1), Err(NoLineUp)),
    ((TWICE_IS_ONE, &[(0, Out)], 1), Err(NoLineUp)),
    ((BREAK_A, &[(3, In)], 15), Ok(())),
];

#[test]
fn solve_answers_the_uppermost_row(rt: HostRuntime) -> Result<(), Fail> {
    for &((book, pins, places), answer) in &SOLVED {
        let mut desk = Desk::new(&rt, rt.alloc(), &book, pins, places)?;
        desk.solve(answer)?;
    }
    Ok(())
}

// What trial answers of a spot.
static TRIED: [(Asked, u32, Result<bool, Refusal>); 26] = [
    ((BREAK_A, &[], 15), 4, Err(OffSheet)),
    ((BREAK_A, &[], 15), 31, Err(OffSheet)),
    ((BREAK_A, &[], 15), 32, Err(OffSheet)),
    ((BREAK_A, &[], 15), u32::MAX, Err(OffSheet)),
    ((BREAK_A, &[(4, In)], 15), 0, Err(OffSheet)),
    ((BREAK_A, &[(0, Out), (31, Out)], 15), 0, Err(OffSheet)),
    ((BREAK_A, &[(4, Out)], 15), 4, Err(OffSheet)),
    ((BREAK_A, &[(5, In)], 15), 4, Err(OffSheet)),
    ((TWELVE_LINKS, &[], MOST_CELLS), 13, Err(OffSheet)),
    ((TWELVE_LINKS, &[], 0), 32, Err(OffSheet)),
    ((TWELVE_LINKS, &[(13, In)], MOST_CELLS), 12, Err(OffSheet)),
    ((TWELVE_LINKS, &[(13, In)], 0), 0, Err(OffSheet)),
    ((BREAK_A, &[], 14), 4, Err(OffSheet)),
    ((BREAK_A, &[(4, In)], 14), 0, Err(OffSheet)),
    ((TWELVE_LINKS, &[], MOST_CELLS), 12, Err(TooWide)),
    ((TWELVE_LINKS, &[], 0), 0, Err(TooWide)),
    ((TWELVE_LINKS_UNLAWFUL, &[(0, In)], 0), 0, Err(TooWide)),
    ((TWELVE_LINKS_UNLAWFUL, &[(0, Out)], 99), 0, Err(TooWide)),
    ((BREAK_A, &[], 14), 0, Err(Short)),
    ((BREAK_A, &[(0, Out), (1, In)], 14), 0, Err(Short)),
    ((BREAK_A, &[(0, In), (1, In)], 14), 0, Err(Short)),
    ((TWICE_IS_ONE, &[], 0), 0, Err(Short)),
    ((TWICE_IS_ONE, &[], 1), 0, Ok(false)),
    ((BREAK_A, &[(0, In), (1, In)], 15), 2, Ok(false)),
    ((BREAK_A, &[(0, Out), (1, In)], 15), 0, Ok(false)),
    ((BREAK_A, &[(0, Out), (1, Out)], 15), 0, Ok(true)),
];

#[test]
fn trial_answers_the_uppermost_row(rt: HostRuntime) -> Result<(), Fail> {
    for &((book, pins, places), spot, answer) in &TRIED {
        let mut desk = Desk::new(&rt, rt.alloc(), &book, pins, places)?;
        desk.try_spot(spot, answer)?;
    }
    Ok(())
}

// How many places of break A's choice table are read, switches, and what instance answers.
static CHOSEN: [(usize, u32, Result<u32, Refusal>); 9] = [
    (15, 16, Err(OffSheet)),
    (15, 0x8000_0000, Err(OffSheet)),
    (15, 31, Err(OffSheet)),
    (14, 16, Err(OffSheet)),
    (0, u32::MAX, Err(OffSheet)),
    (14, 0, Err(Short)),
    (14, 15, Err(Short)),
    (0, 0, Err(Short)),
    (15, 15, Ok(5)),
];

// The same, where next goes on after a line-up, of which 3 is not listed.
static FOLLOWED: [(usize, Option<u32>, Result<Option<u32>, Refusal>); 15] = [
    (15, Some(16), Err(OffSheet)),
    (15, Some(19), Err(OffSheet)),
    (15, Some(u32::MAX), Err(OffSheet)),
    (14, Some(16), Err(OffSheet)),
    (14, Some(19), Err(OffSheet)),
    (0, Some(16), Err(OffSheet)),
    (14, None, Err(Short)),
    (0, None, Err(Short)),
    (14, Some(0), Err(Short)),
    (14, Some(3), Err(Short)),
    (0, Some(14), Err(Short)),
    (15, Some(3), Err(NotListed)),
    (15, Some(15), Err(NotListed)),
    (15, Some(13), Err(NotListed)),
    (15, Some(5), Ok(None)),
];

#[test]
fn instance_answers_the_uppermost_row(rt: HostRuntime) -> Result<(), Fail> {
    for &(places, switches, answer) in &CHOSEN {
        let mut desk = Desk::solved(&rt, rt.alloc(), &BREAK_A, &[], 15)?;
        desk.table.truncate(places);
        desk.assert_instance(switches, answer);
    }
    Ok(())
}

#[test]
fn next_answers_the_uppermost_row(rt: HostRuntime) -> Result<(), Fail> {
    for &(places, after, answer) in &FOLLOWED {
        let mut desk = Desk::solved(&rt, rt.alloc(), &BREAK_A, &[], 15)?;
        desk.table.truncate(places);
        desk.assert_next(after, answer);
    }
    Ok(())
}
