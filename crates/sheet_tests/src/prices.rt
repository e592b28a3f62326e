// Tests of pricing groups of spots.
use crate::desk::*;
use lineup::Answer::*;
use lineup::Refusal::*;
use lineup::*;
use std::alloc::Global;
use std::process::Abort;
use std::test::Fail;

#[test]
fn amounts_and_groups_have_limits(rt: HostRuntime) -> Result<(), Fail> {
    let heap = rt.alloc();
    let mut desk = Desk::with_spots(&rt, heap, 12);
    let calls = [
        (post(0, 1, 9, &PAIR), Done),
        (price(1, 1), Done),
        (price(-1, 0x800), Done),
        (price(1_000_000, 3), Done),
        (price(-1_000_000, 0x3ff), Done),
        (price(1_000_001, 5), Refused(OutOfRange)),
        (price(-1_000_001, 5), Refused(OutOfRange)),
        (price(i32::MAX, 1), Refused(OutOfRange)),
        (price(i32::MIN, 1), Refused(OutOfRange)),
        (price(1, 0x7ff), Refused(Crowded)),
        (price(0, 0xffe), Refused(Crowded)),
        (price(1, 0), Refused(Blank)),
        (price(0, 0), Refused(Blank)),
        (price(1, 0x1000), Refused(OffSheet)),
        (price(0, 0x1001), Refused(OffSheet)),
        (price(1, 1 << 31), Refused(OffSheet)),
        (price(1_000_001, 0x7ff), Refused(OutOfRange)),
        (price(1_000_001, 0), Refused(Blank)),
        (price(i32::MIN, u32::MAX), Refused(OffSheet)),
    ];
    desk.story(&calls)?;
    let list = [(1, 1), (-1, 0x800), (1_000_000, 3), (-1_000_000, 0x3ff)];
    assert_eq!(rt; desk.prices()?.as_slice(), list.as_slice());
    Ok(())
}

// An amount, its group, and the list as it stands once the group has the amount.
static STEPS: [(i32, u32, &[(i32, u32)]); 15] = [
    (0, 1, &[]),
    (10, 4, &[(10, 4)]),
    (20, 1, &[(10, 4), (20, 1)]),
    (-30, 7, &[(10, 4), (20, 1), (-30, 7)]),
    (40, 2, &[(10, 4), (20, 1), (-30, 7), (40, 2)]),
    (25, 1, &[(10, 4), (25, 1), (-30, 7), (40, 2)]),
    (0, 3, &[(10, 4), (25, 1), (-30, 7), (40, 2)]),
    (0, 1, &[(10, 4), (-30, 7), (40, 2)]),
    (0, 1, &[(10, 4), (-30, 7), (40, 2)]),
    (50, 1, &[(10, 4), (-30, 7), (40, 2), (50, 1)]),
    (0, 4, &[(-30, 7), (40, 2), (50, 1)]),
    (0, 1, &[(-30, 7), (40, 2)]),
    (40, 2, &[(-30, 7), (40, 2)]),
    (0, 7, &[(40, 2)]),
    (0, 2, &[]),
];

#[test]
fn the_list_keeps_its_order(rt: HostRuntime) -> Result<(), Fail> {
    let heap = rt.alloc();
    let mut desk = Desk::with_spots(&rt, heap, 3);
    for &(amount, group, list) in &STEPS {
        desk.tell(price(amount, group), Done)?;
        assert_eq!(rt; desk.prices()?.as_slice(), list);
    }
    Ok(())
}

// A desk whose draft has prices of 5 for the groups 1 to 128.
fn with_full_list<R: Abort>(rt: &R, heap: Global) -> Result<Desk<'_, R>, Fail> {
    let mut desk = Desk::with_spots(rt, heap, 12);
    for group in 1..=128 {
        desk.tell(price(5, group), Done)?;
    }
    Ok(desk)
}

#[test]
fn a_list_has_128_prices(rt: HostRuntime) -> Result<(), Fail> {
    let heap = rt.alloc();
    let mut desk = with_full_list(&rt, heap)?;
    let list: Vec<(i32, u32)> = (1..=128).map(|group| (5, group)).collect(heap)?;
    let full = [
        (price(5, 129), Refused(Full)),
        (price(5, 0), Refused(Full)),
        (price(1_000_001, 129), Refused(Full)),
        (price(5, 0xfff), Refused(Full)),
        (price(5, 0x1000), Refused(OffSheet)),
        (price(0, 0), Refused(Blank)),
        (price(1_000_001, 128), Refused(OutOfRange)),
        (price(0, 0xfff), Refused(Crowded)),
        (price(0, 129), Done),
        (price(5, 128), Done),
    ];
    desk.story(&full)?;
    assert_eq!(rt; desk.prices()?, list);
    let exchange = [
        (price(0, 64), Done),
        (price(6, 129), Done),
        (price(5, 64), Refused(Full)),
        (price(7, 1), Done),
    ];
    desk.story(&exchange)?;
    let list = desk.prices()?;
    assert_eq!(rt; list.len(), 128);
    assert_eq!(rt;
        [list.first(), list.get(63), list.last()],
        [Some(&(7, 1)), Some(&(5, 65)), Some(&(6, 129))]
    );
    Ok(())
}
