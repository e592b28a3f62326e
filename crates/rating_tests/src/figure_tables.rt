// Tests of the figure table: its figures, and how far it is written to.
use crate::breaks::*;
use crate::desk::*;
use fewest_clashes::FewestClashes;
use lineup::Pin::*;
use lineup::Refusal::*;
use lineup::*;
use std::test::Fail;

#[test]
fn break_a_has_its_figures_under_takings(rt: HostRuntime) -> Result<(), Fail> {
    let mut desk = Desk::new(&rt, rt.alloc(), &BREAK_A, &[], (15, 16))?;
    desk.rate(&Takings, Ok(70))?;
    desk.assert_figures(&[70, 60, 20, 30, 20, 30, 0, 10, 10, 10, 0, 10, 0, 10, 0]);
    desk.takings(Ok(70))?;
    desk.assert_figures(&[70, 60, 20, 30, 20, 30, 0, 10, 10, 10, 0, 10, 0, 10, 0]);
    Ok(())
}

#[test]
fn break_a_has_its_figures_under_count(rt: HostRuntime) -> Result<(), Fail> {
    // A dead cell has the plain figure.
    let mut desk = Desk::new(&rt, rt.alloc(), &BREAK_A, &[], (16, 15))?;
    desk.rate(&Count, Ok(11))?;
    desk.assert_figures(&[11, 8, 3, 4, 3, 4, 1, 2, 2, 2, 1, 2, 1, 2, 1]);
    Ok(())
}

#[test]
fn break_a_has_its_figures_where_spot_1_is_pinned(rt: HostRuntime) -> Result<(), Fail> {
    let pins = &[(1, In), (3, In)];
    let mut desk = Desk::new(&rt, rt.alloc(), &BREAK_A, pins, (30, 30))?;
    desk.rate(&Mildest, Ok(30))?;
    desk.assert_figures(&[30, 30, 0, 10, 10, 10, 0, 10, 10, 10, 0, 10, 0, 10, 0]);
    desk.rate(&FewestClashes, Ok(2))?;
    desk.assert_figures(&[2, 2, 0, 1, 1, 1, 0, 1, 1, 1, 0, 1, 0, 1, 0]);
    Ok(())
}

#[test]
fn figures_of_an_earlier_call_are_not_read(rt: HostRuntime) -> Result<(), Fail> {
    let mut desk = Desk::new(&rt, rt.alloc(), &BREAK_A, &[], (15, 15))?;
    desk.best(&Takings, Ok((70, 5)))?;
    desk.rate(&Count, Ok(11))?;
    desk.card = card_with(&rt, &[(0, In), (1, In)]);
    desk.rate(&Count, Err(NoLineUp))?;
    // The figures are still those of the card before.
    desk.assert_figures(&[11, 8, 3, 4, 3, 4, 1, 2, 2, 2, 1, 2, 1, 2, 1]);
    desk.card = card_with(&rt, &[(0, In)]);
    desk.rate(&Count, Ok(3))?;
    desk.card = Card::new();
    desk.takings(Ok(70))?;
    desk.best(&Takings, Ok((70, 5)))
}
