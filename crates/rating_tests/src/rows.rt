// Tests of the rows of refusals: of those that fit the uppermost is answered, and the tables are as they were.
use crate::breaks::*;
use crate::desk::*;
use crate::limits::*;
use fewest_clashes::FewestClashes;
use lineup::Pin::*;
use lineup::Refusal::*;
use lineup::*;
use std::test::Fail;

// A sheet, pins, and how many places the choice table and the figure table have.
type Asked = (Book, &'static [(u32, Pin)], (usize, usize));

const ALL: (usize, usize) = (MOST_CELLS, MOST_CELLS);

static REFUSED: [(Asked, Refusal); 28] = [
    ((BREAK_A, &[(4, In)], (15, 15)), OffSheet),
    ((BREAK_A, &[(0, In), (31, Out)], (15, 15)), OffSheet),
    ((BREAK_A, &[(0, In), (1, In), (4, In)], (15, 15)), OffSheet),
    ((TWICE_IS_ONE, &[(1, Out)], (1, 1)), OffSheet),
    ((TWELVE_LINKS, &[(13, In)], ALL), OffSheet),
    ((TWELVE_LINKS, &[(13, In)], (0, 0)), OffSheet),
    ((BREAK_A, &[(4, In)], (14, 15)), OffSheet),
    ((BREAK_A, &[(4, In)], (15, 14)), OffSheet),
    ((BREAK_A, &[(4, In)], (0, 0)), OffSheet),
    ((TWELVE_LINKS, &[], ALL), TooWide),
    ((TWELVE_LINKS, &[], (0, MOST_CELLS)), TooWide),
    ((TWELVE_LINKS, &[], (MOST_CELLS, 0)), TooWide),
    ((TWELVE_LINKS_UNLAWFUL, &[], ALL), TooWide),
    ((TWELVE_LINKS_UNLAWFUL, &[], (0, 0)), TooWide),
    // Short by the choice table, by the figure table, by both.
    ((BREAK_A, &[], (14, 15)), Short),
    ((BREAK_A, &[], (15, 14)), Short),
    ((BREAK_A, &[], (14, 14)), Short),
    ((BREAK_A, &[], (0, 30)), Short),
    ((BREAK_A, &[], (30, 0)), Short),
    ((TWICE_IS_ONE, &[], (0, 1)), Short),
    ((TWICE_IS_ONE, &[], (1, 0)), Short),
    ((BREAK_A, &[(0, In), (1, In)], (14, 15)), Short),
    ((BREAK_A, &[(0, In), (1, In)], (15, 14)), Short),
    // The choice table shows where it fails.
    ((BREAK_A, &[(0, In), (1, In)], (15, 15)), NoLineUp),
    ((BREAK_A, &[(0, In), (1, In)], (30, 16)), NoLineUp),
    ((BREAK_A, &[(0, In), (1, In)], (16, 30)), NoLineUp),
    ((TWICE_IS_ONE, &[], (1, 1)), NoLineUp),
    ((TWICE_IS_ONE, &[(0, Out)], (9, 9)), NoLineUp),
];

#[test]
fn the_uppermost_row_is_answered(rt: HostRuntime) -> Result<(), Fail> {
    for &((book, pins, places), refusal) in &REFUSED {
        let mut desk = Desk::new(&rt, rt.alloc(), &book, pins, places)?;
        desk.rate(&Count, Err(refusal))?;
        desk.best(&Takings, Err(refusal))?;
        desk.takings(Err(refusal))?;
        desk.assert_figures(&[]);
    }
    Ok(())
}

#[test]
fn a_rating_of_a_maker_is_refused_alike(rt: HostRuntime) -> Result<(), Fail> {
    for &((book, pins, places), refusal) in &REFUSED {
        let mut desk = Desk::new(&rt, rt.alloc(), &book, pins, places)?;
        desk.best(&FewestClashes, Err(refusal))?;
        desk.assert_figures(&[]);
    }
    Ok(())
}

#[test]
fn tables_as_long_as_the_need_are_taken(rt: HostRuntime) -> Result<(), Fail> {
    for places in [(15, 15), (15, 30), (30, 15)] {
        let mut desk = Desk::new(&rt, rt.alloc(), &BREAK_A, &[(3, In)], places)?;
        desk.rate(&Count, Ok(5))?;
        desk.best(&Takings, Ok((60, 14)))?;
        desk.takings(Ok(60))?;
    }
    Ok(())
}
