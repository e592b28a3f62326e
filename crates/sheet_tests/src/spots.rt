// Tests of declaring spots.
use crate::desk::*;
use lineup::Answer::*;
use lineup::Refusal::*;
use lineup::*;
use std::test::Fail;

#[test]
fn a_house_number_is_declared_once(rt: HostRuntime) -> Result<(), Fail> {
    let mut desk = Desk::new(&rt, rt.alloc(), Draft::new());
    let calls = [
        (declare(0), Spot(0)),
        (declare(0), Refused(Twice)),
        (declare(u32::MAX), Spot(1)),
        (declare(7), Spot(2)),
        (declare(u32::MAX), Refused(Twice)),
        (declare(0), Refused(Twice)),
        (declare(7), Refused(Twice)),
        (declare(1), Spot(3)),
    ];
    desk.story(&calls)?;
    assert_eq!(rt; desk.lock().houses(), [0, u32::MAX, 7, 1].as_slice());
    Ok(())
}

#[test]
fn a_break_has_32_spots(rt: HostRuntime) -> Result<(), Fail> {
    let mut desk = Desk::with_spots(&rt, rt.alloc(), 31);
    let calls = [
        (post(0, 1, 9, &PAIR), Done),
        (price(4, 3), Done),
        (declare(1030), Refused(Twice)),
        (declare(5), Spot(31)),
        (declare(6), Refused(Full)),
        (declare(5), Refused(Full)),
        (declare(1000), Refused(Full)),
    ];
    desk.story(&calls)?;
    let houses: Vec<u32> = (1000..1031).chain([5]).collect(rt.alloc())?;
    assert_eq!(rt; desk.lock().houses(), houses.as_slice());
    assert_eq!(rt; houses.len(), 32);
    Ok(())
}
