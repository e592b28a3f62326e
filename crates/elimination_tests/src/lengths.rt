// Tests of the length of a choice table, and of what is written to it.
use crate::breaks::*;
use crate::desk::*;
use lineup::Pin::*;
use lineup::Refusal::*;
use lineup::*;
use std::test::Fail;

#[test]
fn a_table_one_cell_short_is_left(rt: HostRuntime) -> Result<(), Fail> {
    let heap = rt.alloc();
    // The plan and the codes of another sheet stand at the desk.
    let mut desk = Desk::solved(&rt, heap, &ONE_OF_TWO, &[], 14)?;
    desk.sheet = BREAK_A.sheet(&rt, heap)?;
    desk.solve(Err(Short))?;
    desk.try_spot(0, Err(Short))?;
    desk.assert_codes(&[0, 1], &[2, 1, 0]);
    desk.table.push(UNWRITTEN)?;
    desk.solve(Ok(()))?;
    assert_eq!(rt; desk.plan.need(), 15);
    // One cell less is too short to read as well.
    desk.table.pop();
    desk.assert_instance(0, Err(Short));
    desk.assert_next(None, Err(Short));
    Ok(())
}

// A sheet and pins, with what solve answers, and whether spot 0 fits.
type Filled = (Book, &'static [(u32, Pin)], Result<(), Refusal>, bool);

static FILLED: [Filled; 4] = [
    (BREAK_A, &[], Ok(()), true),
    (BREAK_A, &[(1, In)], Ok(()), false),
    (BREAK_A, &[(1, In), (2, In), (0, In)], Err(NoLineUp), false),
    (TWICE_IS_ONE, &[], Err(NoLineUp), false),
];

#[test]
fn what_lies_beyond_the_need_is_left(rt: HostRuntime) -> Result<(), Fail> {
    for &(book, pins, answer, fits) in &FILLED {
        let mut desk = Desk::new(&rt, rt.alloc(), &book, pins, 30)?;
        desk.try_spot(0, Ok(fits))?;
        desk.solve(answer)?;
        desk.assert_written();
        desk.try_spot(0, Ok(fits))?;
        desk.assert_written();
    }
    Ok(())
}
