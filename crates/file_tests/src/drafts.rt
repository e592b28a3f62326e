// Tests of what reading a file makes of a draft, and of sheets whose rules and prices did not come in the order of the file.
use crate::breaks::{BREAK_A, break_a};
use crate::desk::*;
use lineup::FileFault::*;
use lineup::*;
use std::test::Fail;

#[test]
fn no_bytes_are_the_empty_sheet(rt: HostRuntime) -> Result<(), Fail> {
    let heap = rt.alloc();
    let mut draft = booked_draft(&rt);
    assert_eq!(rt; read(&mut draft, &[]), Ok(()));
    let empty = Held::of(heap, &Draft::new().lock())?;
    assert_eq!(rt; look(heap, &mut draft)?, empty);
    assert_eq!(rt; draft.unused_places(), 512);
    Ok(())
}

#[test]
fn a_draft_is_replaced_or_left(rt: HostRuntime) -> Result<(), Fail> {
    let heap = rt.alloc();
    let mut draft = booked_draft(&rt);
    let before = look(heap, &mut draft)?;
    assert_eq!(rt; before.unused_places, 510);
    // The whole file but its last byte, and the whole file.
    let cut = BREAK_A.get(..98).ok_or("no file")?;
    assert_eq!(rt; read(&mut draft, cut), Err(bad_file(90, Flaw)));
    assert_eq!(rt; look(heap, &mut draft)?, before);
    assert_eq!(rt; read(&mut draft, &BREAK_A), Ok(()));
    let told = Held::of(heap, &break_a(&rt).lock())?;
    assert_eq!(rt; look(heap, &mut draft)?, told);
    assert_eq!(rt; read(&mut draft, cut), Err(bad_file(90, Flaw)));
    assert_eq!(rt; look(heap, &mut draft)?, told);
    // It takes bookings again.
    assert_eq!(rt; draft.declare(101), Err(Refusal::Twice));
    assert_eq!(rt; draft.declare(900), Ok(4));
    assert_eq!(rt; draft.post(0, 1, 1, &[]), Err(Refusal::Twice));
    assert_eq!(rt; draft.withdraw(0), Ok(()));
    assert_eq!(rt; draft.unused_places(), 508);
    assert_eq!(rt; read(&mut draft, &BREAK_A), Ok(()));
    assert_eq!(rt; look(heap, &mut draft)?, told);
    Ok(())
}

// A term for spot 0 and one for spot 1.
static PAIR: [Term; 2] = [
    Term {
        coefficient: 30,
        group: 1,
    },
    Term {
        coefficient: -20,
        group: 2,
    },
];

// Rules 2 and 9 and the prices of spot 1 and of both spots, where rule 4 and the price of spot 0 are no more.
static IN_ORDER: [u8; 78] = [
    1, 0, 0, 0, 7, 1, 0, 0, 0, 5, //
    2, 2, 1, 0, 0, 0, 40, 3, 0, 0, 0, 30, 0, 0, 0, 1, 3, 255, 255, 255, 236, 0, 0, 0, 2, //
    2, 9, 2, 255, 255, 255, 251, 3, 0, 0, 0, 30, 0, 0, 0, 1, 3, 255, 255, 255, 236, 0, 0, 0, 2, //
    4, 0, 0, 0, 8, 0, 0, 0, 2, 4, 255, 255, 255, 249, 0, 0, 0, 3,
];

#[test]
fn what_stands_is_written_in_the_order_of_the_file(rt: HostRuntime) -> Result<(), Fail> {
    let heap = rt.alloc();
    let mut draft = Draft::new();
    for (spot, house) in (0..).zip([7, 5]) {
        assert_eq!(rt; draft.declare(house), Ok(spot));
    }
    for (number, relation, bound) in [(9, 2, -5), (4, 0, 0), (2, 1, 40)] {
        assert_eq!(rt; draft.post(number, relation, bound, &PAIR), Ok(()));
    }
    for (amount, group) in [(6, 1), (3, 2), (-7, 3), (8, 2), (0, 1)] {
        assert_eq!(rt; draft.price(amount, group), Ok(()));
    }
    assert_eq!(rt; draft.withdraw(4), Ok(()));
    assert_eq!(rt; draft.unused_places(), 506);
    let sheet = draft.lock();
    let mut space = [UNWRITTEN; 78];
    assert_eq!(rt; write(&sheet, &mut space), Ok(78));
    assert_eq!(rt; space, IN_ORDER);
    let told = assert_accepted(&rt, heap, &IN_ORDER, "in order")?;
    let mut before = Held::of(heap, &sheet)?;
    // The places of rule 4 are back.
    assert_eq!(rt; before.unused_places, 506);
    before.unused_places = 508;
    assert_eq!(rt; Held::of(heap, &told)?, before);
    Ok(())
}

#[test]
fn places_come_back(rt: HostRuntime) -> Result<(), Fail> {
    let heap = rt.alloc();
    let mut draft = Draft::new();
    for (spot, house) in (0..).zip([7, 5]) {
        assert_eq!(rt; draft.declare(house), Ok(spot));
    }
    for _ in 0..255 {
        assert_eq!(rt; draft.post(1, 1, 40, &PAIR), Ok(()));
        assert_eq!(rt; draft.withdraw(1), Ok(()));
    }
    assert_eq!(rt; draft.post(0, 1, 40, &PAIR), Ok(()));
    assert_eq!(rt; draft.post(1, 1, 40, &PAIR), Err(Refusal::Full));
    let sheet = draft.lock();
    let mut space = [UNWRITTEN; 35];
    assert_eq!(rt; write(&sheet, &mut space), Ok(35));
    let mut draft = sheet.unlock();
    assert_eq!(rt; draft.unused_places(), 0);
    assert_eq!(rt; read(&mut draft, &space), Ok(()));
    assert_eq!(rt; draft.unused_places(), 510);
    assert_eq!(rt; draft.post(1, 1, 40, &PAIR), Ok(()));
    let held = look(heap, &mut draft)?;
    assert_eq!(rt; held.rules.len(), 2);
    assert_eq!(rt; held.unused_places, 508);
    Ok(())
}
