// Tests of locking and unlocking a sheet.
use crate::desk::*;
use lineup::Answer::*;
use lineup::*;
use std::test::Fail;

#[test]
fn a_new_sheet_is_empty(rt: HostRuntime) {
    let draft = Draft::new();
    assert_eq!(rt; draft.unused_places(), 512);
    let locked = draft.lock();
    assert_eq!(rt; locked.unused_places(), 512);
    assert!(rt; locked.houses().is_empty());
    assert!(rt; locked.prices().is_empty());
    for number in 0..=u8::MAX {
        assert!(rt; locked.rule(number).is_none());
    }
}

#[test]
fn an_unlocked_sheet_takes_bookings_again(rt: HostRuntime) -> Result<(), Fail> {
    let heap = rt.alloc();
    let mut desk = Desk::with_spots(&rt, heap, 2);
    desk.story(&[
        (post(0, 1, 8, &PAIR), Done),
        (price(6, 1), Done),
        (price(7, 3), Done),
    ])?;
    let mut desk = desk.relock()?;
    assert_eq!(rt; desk.draft.unused_places(), 510);
    desk.story(&[
        (declare(9), Spot(2)),
        (post(1, 2, 3, &PAIR), Done),
        (price(-8, 4), Done),
        (withdraw(0), Done),
        (price(0, 1), Done),
    ])?;
    let rule = HeldRule::new(1, Relation::AtLeast, 3, PAIR.to_vec(heap)?);
    desk.assert_holds(&[rule], 508)?;
    let locked = desk.lock();
    assert_eq!(rt; locked.houses(), [1000, 1001, 9].as_slice());
    assert_eq!(rt; locked.prices().len(), 2);
    Ok(())
}
