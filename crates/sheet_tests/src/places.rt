// Tests of the term places that rules use up.
use crate::desk::*;
use lineup::Answer::*;
use lineup::Refusal::*;
use lineup::*;
use std::test::Fail;

#[test]
fn a_rule_has_64_terms(rt: HostRuntime) -> Result<(), Fail> {
    let heap = rt.alloc();
    let mut desk = Desk::with_spots(&rt, heap, 10);
    for (count, answer) in [
        (65, Refused(Crowded)),
        (512, Refused(Crowded)),
        (513, Refused(Full)),
        (64, Done),
        (448, Refused(Twice)),
        (449, Refused(Full)),
    ] {
        desk.post_terms(0, count, answer)?;
    }
    let crowd = terms_of(heap, 65)?;
    desk.tell(post(1, 3, 40, &crowd), Refused(OutOfRange))?;
    let rule = HeldRule::new(0, Relation::AtMost, 40, terms_of(heap, 64)?);
    desk.assert_holds(&[rule], 448)
}

#[test]
fn a_sheet_has_512_places(rt: HostRuntime) -> Result<(), Fail> {
    let heap = rt.alloc();
    let mut desk = Desk::with_spots(&rt, heap, 7);
    for number in 0..7 {
        desk.post_terms(number, 64, Done)?;
    }
    for (number, count, answer, unused) in [
        (7, 65, Refused(Full), 64),
        (7, 63, Done, 1),
        (8, 2, Refused(Full), 1),
        (63, 1, Done, 0),
        (8, 1, Refused(Full), 0),
        (8, 0, Refused(Blank), 0),
    ] {
        desk.post_terms(number, count, answer)?;
        assert_eq!(rt; desk.draft.unused_places(), unused);
    }
    assert_eq!(rt; desk.look()?.rules.len(), 9);
    desk.tell(withdraw(0), Done)?;
    desk.post_terms(0, 1, Refused(Full))?;
    assert_eq!(rt; desk.lock().unused_places(), 0);
    Ok(())
}

#[test]
fn rebooking_uses_up_the_places(rt: HostRuntime) -> Result<(), Fail> {
    let heap = rt.alloc();
    let mut desk = Desk::with_spots(&rt, heap, 3);
    desk.post_terms(0, 2, Done)?;
    for _ in 0..85 {
        desk.post_terms(1, 6, Done)?;
        desk.tell(withdraw(1), Done)?;
    }
    desk.post_terms(1, 6, Refused(Full))?;
    desk.post_terms(1, 1, Refused(Full))?;
    desk.tell(withdraw(1), Refused(NotLive))?;
    let rule = HeldRule::new(0, Relation::AtMost, 40, terms_of(heap, 2)?);
    desk.assert_holds(&[rule], 0)
}
