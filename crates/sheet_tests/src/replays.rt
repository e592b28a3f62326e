// Tests of histories that are replayed.
use crate::desk::*;
use lineup::Answer::*;
use lineup::Booking::*;
use lineup::Refusal::*;
use lineup::*;
use std::alloc::{AllocError, Global};
use std::process::Abort;
use std::test::Fail;

// A history that ends on a locked sheet, with its answers.
fn history() -> [(Booking<'static>, Answer); 25] {
    [
        (Unlock, PassedOver),
        (declare(101), Spot(0)),
        (post(3, 1, 40, &PAIR), Refused(OffSheet)),
        (declare(102), Spot(1)),
        (declare(101), Refused(Twice)),
        (post(3, 1, 40, &PAIR), Done),
        (post(4, 2, -5, &PAIR), Done),
        (price(7, 3), Done),
        (price(8, 2), Done),
        (price(8, 0), Refused(Blank)),
        (Lock, Done),
        (Lock, PassedOver),
        (declare(103), PassedOver),
        (declare(101), PassedOver),
        (post(5, 0, 0, &PAIR), PassedOver),
        (price(9, 1), PassedOver),
        (withdraw(3), PassedOver),
        (Unlock, Done),
        (Unlock, PassedOver),
        (withdraw(3), Done),
        (withdraw(3), Refused(NotLive)),
        (price(0, 3), Done),
        (declare(103), Spot(2)),
        (post(3, 0, 6, &PAIR), Done),
        (Lock, Done),
    ]
}

// The calls of the history that the sheet's state has, made by name, with relations as the bytes that a maker gives.
fn book_by_name(rt: &impl Abort) -> Locked {
    let mut draft = Draft::new();
    assert_eq!(rt; draft.declare(101), Ok(0));
    assert_eq!(rt; draft.post(3, 1, 40, &PAIR), Err(OffSheet));
    assert_eq!(rt; draft.declare(102), Ok(1));
    assert_eq!(rt; draft.declare(101), Err(Twice));
    assert_eq!(rt; draft.post(3, 1, 40, &PAIR), Ok(()));
    assert_eq!(rt; draft.post(4, 2, -5, &PAIR), Ok(()));
    assert_eq!(rt; draft.price(7, 3), Ok(()));
    assert_eq!(rt; draft.price(8, 2), Ok(()));
    assert_eq!(rt; draft.price(8, 0), Err(Blank));
    let mut draft = draft.lock().unlock();
    assert_eq!(rt; draft.withdraw(3), Ok(()));
    assert_eq!(rt; draft.withdraw(3), Err(NotLive));
    assert_eq!(rt; draft.price(0, 3), Ok(()));
    assert_eq!(rt; draft.declare(103), Ok(2));
    assert_eq!(rt; draft.post(3, 0, 6, &PAIR), Ok(()));
    draft.lock()
}

// What a sheet holds, by its state.
#[derive(PartialEq, Debug, Drop)]
enum Seen {
    Draft(Held),
    Locked(Held),
}

fn look_at(heap: Global, sheet: Sheet) -> Result<Seen, AllocError> {
    match sheet {
        Sheet::Draft(draft) => Ok(Seen::Draft(Held::of(heap, &draft.lock())?)),
        Sheet::Locked(locked) => Ok(Seen::Locked(Held::of(heap, &locked)?)),
    }
}

#[test]
fn a_history_books_what_its_calls_book(rt: HostRuntime) -> Result<(), Fail> {
    let heap = rt.alloc();
    let bookings = history().map(|(booking, _)| booking);
    let told = history().map(|(_, answer)| answer);
    let booked = Seen::Locked(Held::of(heap, &book_by_name(&rt))?);
    for room in 0..30 {
        let mut answers = vec![in heap; Spot(99); room]?;
        let sheet = replay(&bookings, &mut answers);
        assert_eq!(rt; &look_at(heap, sheet)?, &booked);
        assert_noted(&rt, &answers, &told, Spot(99));
    }
    Ok(())
}

#[test]
fn what_is_refused_or_passed_over_changes_nothing(rt: HostRuntime) -> Result<(), Fail> {
    let heap = rt.alloc();
    // The history grows by a call at a time, and is replayed after each.
    let mut bookings = Vec::new(heap);
    let mut sheet = Sheet::Draft(Draft::new());
    let mut before = look_at(heap, replay(&bookings, &mut []))?;
    for (booking, told) in history() {
        bookings.push(booking)?;
        let after = look_at(heap, replay(&bookings, &mut []))?;
        let changes = matches!(told, Spot(_) | Done);
        assert_eq!(rt; after != before, changes, "after {told:?}");
        before = after;
        let (next, answer) = sheet.make(booking);
        assert_eq!(rt; answer, told);
        sheet = next;
    }
    assert_eq!(rt; look_at(heap, sheet)?, before);
    Ok(())
}
