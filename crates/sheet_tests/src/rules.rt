// Tests of posting and withdrawing rules.
use crate::desk::*;
use lineup::Answer::*;
use lineup::Refusal::*;
use lineup::*;
use std::test::Fail;

// What a sheet of 32 spots takes.
static WITHIN: [PostCase; 10] = [
    (0, 0, 0, &[(1, 1)], Done),
    (63, 0, 0, &[(-1, 1)], Done),
    (1, 1, 0, &[(1, 2)], Done),
    (1, 2, 0, &[(1, 1 << 31)], Done),
    (2, 1, 1_000_000_000, &[(1_000_000, 1)], Done),
    (2, 1, -1_000_000_000, &[(-1_000_000, 1)], Done),
    (3, 1, 0, &[(1, 0x3ff)], Done),
    (3, 1, 0, &[(1, 0xffc0_0000)], Done),
    (3, 1, 0, &[(1, 0x1f), (2, 0x3e0)], Done),
    (3, 1, 0, &[(1, 0xff), (2, 0x3fc), (3, 0x201)], Done),
];

#[test]
fn a_rule_within_its_limits_stands_as_posted(rt: HostRuntime) -> Result<(), Fail> {
    let heap = rt.alloc();
    for &posting in &WITHIN {
        let (number, relation, bound, pairs, _) = posting;
        let mut desk = Desk::with_spots(&rt, heap, 32);
        desk.post_all(&[posting])?;
        let relation = Relation::try_from(relation)?;
        let rule = HeldRule::new(number, relation, bound, terms_from(heap, pairs)?);
        desk.assert_holds(&[rule], 512usize.wrapping_sub(pairs.len()))?;
    }
    Ok(())
}

// What a sheet of 32 spots with a live rule 0 refuses.
static BEYOND: [PostCase; 24] = [
    (0, 1, 0, &[(1, 2)], Refused(Twice)),
    (1, 1, 0, &[(1, 2), (2, 2)], Refused(Twice)),
    (1, 1, 0, &[(1, 2), (1, 4), (3, 2)], Refused(Twice)),
    (1, 1, 0, &[], Refused(Blank)),
    (1, 1, 0, &[(1, 0)], Refused(Blank)),
    (1, 1, 0, &[(1, 2), (1, 0)], Refused(Blank)),
    (64, 1, 0, &[(1, 2)], Refused(OutOfRange)),
    (255, 1, 0, &[(1, 2)], Refused(OutOfRange)),
    (1, 3, 0, &[(1, 2)], Refused(OutOfRange)),
    (1, 255, 0, &[(1, 2)], Refused(OutOfRange)),
    (1, 1, 1_000_000_001, &[(1, 2)], Refused(OutOfRange)),
    (1, 1, -1_000_000_001, &[(1, 2)], Refused(OutOfRange)),
    (1, 1, i32::MAX, &[(1, 2)], Refused(OutOfRange)),
    (1, 1, i32::MIN, &[(1, 2)], Refused(OutOfRange)),
    (1, 1, 0, &[(0, 2)], Refused(OutOfRange)),
    (1, 1, 0, &[(1_000_001, 2)], Refused(OutOfRange)),
    (1, 1, 0, &[(-1_000_001, 2)], Refused(OutOfRange)),
    (1, 1, 0, &[(i32::MAX, 2)], Refused(OutOfRange)),
    (1, 1, 0, &[(i32::MIN, 2)], Refused(OutOfRange)),
    (1, 1, 0, &[(1, 2), (0, 4)], Refused(OutOfRange)),
    (1, 1, 0, &[(1, 0x7ff)], Refused(Crowded)),
    (1, 1, 0, &[(1, 0x3f), (2, 0x7c0)], Refused(Crowded)),
    (1, 1, 0, &[(1, 0x3ff), (2, 1 << 31)], Refused(Crowded)),
    (1, 1, 0, &[(1, u32::MAX)], Refused(Crowded)),
];

// What the same sheet refuses where several rows fit.
static ROWS: [PostCase; 12] = [
    (0, 1, 0, &[], Refused(Twice)),
    (1, 1, 0, &[(1, 0), (1, 0)], Refused(Twice)),
    (0, 3, i32::MIN, &[(0, 0), (0, 0x7ff)], Refused(Twice)),
    (64, 1, 0, &[], Refused(Blank)),
    (1, 3, 0, &[], Refused(Blank)),
    (1, 1, 1_000_000_001, &[], Refused(Blank)),
    (1, 1, 0, &[(0, 0)], Refused(Blank)),
    (1, 1, 0, &[(1, 0), (1, 0x7ff)], Refused(Blank)),
    (64, 1, 0, &[(1, 0x7ff)], Refused(OutOfRange)),
    (1, 3, 0, &[(1, 0x7ff)], Refused(OutOfRange)),
    (1, 1, i32::MIN, &[(1, 0x7ff)], Refused(OutOfRange)),
    (1, 1, 0, &[(0, 0x7ff)], Refused(OutOfRange)),
];

#[test]
fn a_rule_beyond_its_limits_is_refused(rt: HostRuntime) -> Result<(), Fail> {
    let heap = rt.alloc();
    let mut desk = Desk::with_spots(&rt, heap, 32);
    desk.post_all(&[(0, 2, -5, &[(3, 1), (-4, 6)], Done)])?;
    desk.tell(price(9, 3), Done)?;
    desk.post_all(&BEYOND)?;
    desk.post_all(&ROWS)
}

#[test]
fn a_rule_names_declared_spots(rt: HostRuntime) -> Result<(), Fail> {
    let heap = rt.alloc();
    let none: [PostCase; 2] = [
        (0, 1, 0, &[(1, 1)], Refused(OffSheet)),
        (0, 1, 0, &[(1, 0)], Refused(Blank)),
    ];
    Desk::new(&rt, heap, Draft::new()).post_all(&none)?;
    let one: [PostCase; 4] = [
        (0, 1, 0, &[(1, 2)], Refused(OffSheet)),
        (0, 1, 0, &[(1, 3)], Refused(OffSheet)),
        (0, 1, 0, &[(1, 1 << 31)], Refused(OffSheet)),
        (0, 1, 0, &[(1, 1)], Done),
    ];
    Desk::with_spots(&rt, heap, 1).post_all(&one)?;
    let all_but_one: [PostCase; 2] = [
        (0, 1, 0, &[(1, 1 << 31)], Refused(OffSheet)),
        (0, 1, 0, &[(1, 1 << 30)], Done),
    ];
    Desk::with_spots(&rt, heap, 31).post_all(&all_but_one)
}

// What a sheet of seven spots refuses whose live rules 0 to 7 use all places.
static WITHOUT_PLACES: [PostCase; 7] = [
    (8, 1, 0, &[(1, 1)], Refused(Full)),
    (0, 1, 0, &[(1, 1)], Refused(Full)),
    (8, 1, 0, &[(1, 1), (1, 1)], Refused(Full)),
    (0, 3, i32::MIN, &[(0, 0), (0, 0)], Refused(Full)),
    (0, 3, i32::MIN, &[], Refused(Twice)),
    (8, 1, 0, &[(1, 0x80)], Refused(OffSheet)),
    (0, 3, i32::MIN, &[(0, 0), (0, 0xfff)], Refused(OffSheet)),
];

#[test]
fn the_uppermost_row_is_answered(rt: HostRuntime) -> Result<(), Fail> {
    let mut desk = Desk::without_places(&rt, rt.alloc())?;
    desk.post_all(&WITHOUT_PLACES)
}

#[test]
fn a_rule_is_withdrawn_once(rt: HostRuntime) -> Result<(), Fail> {
    let heap = rt.alloc();
    let mut desk = Desk::with_spots(&rt, heap, 2);
    let early = [
        (withdraw(0), Refused(NotLive)),
        (withdraw(63), Refused(NotLive)),
        (withdraw(64), Refused(OutOfRange)),
        (withdraw(255), Refused(OutOfRange)),
    ];
    desk.story(&early)?;
    let rules: [PostCase; 2] = [
        (0, 0, 1, &[(1, 1)], Done),
        (63, 1, 2, &[(2, 2), (3, 3)], Done),
    ];
    desk.post_all(&rules)?;
    let late = [
        (withdraw(1), Refused(NotLive)),
        (withdraw(62), Refused(NotLive)),
        (withdraw(64), Refused(OutOfRange)),
        (withdraw(0), Done),
        (withdraw(0), Refused(NotLive)),
    ];
    desk.story(&late)?;
    let again: [PostCase; 2] = [
        (63, 2, 4, &[(5, 1)], Refused(Twice)),
        (0, 2, 4, &[(5, 1)], Done),
    ];
    desk.post_all(&again)?;
    let new = terms_from(heap, &[(5, 1)])?;
    let old = terms_from(heap, &[(2, 2), (3, 3)])?;
    let first = HeldRule::new(0, Relation::AtLeast, 4, new);
    let last = HeldRule::new(63, Relation::AtMost, 2, old);
    desk.assert_holds(&[first, last], 508)
}
