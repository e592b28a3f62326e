// Tests of what trial says of a spot, and of the card that it leaves.
use crate::breaks::*;
use crate::desk::*;
use lineup::Pin::*;
use lineup::Refusal::*;
use lineup::Relation::*;
use lineup::*;
use std::test::Fail;

// Pins on the card, and of each spot of break A whether it fits.
static FITTING: [(&[(u32, Pin)], &[bool]); 9] = [
    (&[], &[true, true, true, true]),
    (&[(1, In)], &[false, true, true, true]),
    (&[(0, In)], &[true, false, true, true]),
    (&[(2, In), (3, In)], &[false, true, true, true]),
    (&[(0, In), (3, In)], &[true, false, false, true]),
    (&[(0, In), (1, In)], &[false, false, false, false]),
    (&[(0, In), (1, Out)], &[true, false, true, true]),
    (
        &[(0, Out), (1, Out), (2, Out), (3, Out)],
        &[true, true, true, true],
    ),
    (
        &[(0, Out), (1, In), (2, In), (3, In)],
        &[false, true, true, true],
    ),
];

#[test]
fn a_spot_fits_where_a_line_up_has_it(rt: HostRuntime) -> Result<(), Fail> {
    for &(pins, fitting) in &FITTING {
        let mut desk = Desk::new(&rt, rt.alloc(), &BREAK_A, pins, 15)?;
        desk.try_spots(fitting)?;
        desk.try_spot(4, Err(OffSheet))?;
    }
    Ok(())
}

// Of two spots spot 0 never runs.
const NEVER_SPOT_0: Book = Book {
    spots: 2,
    rules: &[(0, Equal, 0, &[(1, 1)])],
    prices: &[],
};

#[test]
fn a_spot_that_never_runs_does_not_fit(rt: HostRuntime) -> Result<(), Fail> {
    for pins in [&[] as &[(u32, Pin)], &[(0, Out)], &[(0, In)]] {
        let mut desk = Desk::new(&rt, rt.alloc(), &NEVER_SPOT_0, pins, 2)?;
        desk.try_spot(0, Ok(false))?;
    }
    let mut desk = Desk::solved(&rt, rt.alloc(), &NEVER_SPOT_0, &[], 2)?;
    desk.try_spot(1, Ok(true))?;
    desk.card = card_with(&rt, &[(0, In)]);
    desk.try_spot(1, Ok(false))
}

#[test]
fn trial_leaves_the_codes_of_the_spot_pinned_in(rt: HostRuntime) -> Result<(), Fail> {
    let mut desk = Desk::solved(&rt, rt.alloc(), &BREAK_A, &[], 15)?;
    desk.try_spot(1, Ok(true))?;
    desk.assert_lists(&[2, 10, 6, 14]);
    desk.solve(Ok(()))?;
    desk.assert_lists(&[0, 8, 4, 12, 2, 10, 6, 14, 1, 9, 5]);
    Ok(())
}
