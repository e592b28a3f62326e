// Tests of small files that are written out by hand.
use crate::desk::*;
use lineup::FileFault::*;
use lineup::Refusal::*;
use lineup::*;
use std::process::Abort;
use std::test::Fail;

// Spots of 30, 20, 10 and 10 seconds in a break of 40.
pub static BREAK_A: [u8; 99] = [
    1, 0, 0, 0, 101, 1, 0, 0, 0, 102, 1, 0, 0, 0, 103, 1, 0, 0, 0, 104, //
    2, 0, 1, 0, 0, 0, 40, //
    3, 0, 0, 0, 30, 0, 0, 0, 1, 3, 0, 0, 0, 20, 0, 0, 0, 2, //
    3, 0, 0, 0, 10, 0, 0, 0, 4, 3, 0, 0, 0, 10, 0, 0, 0, 8, //
    4, 0, 0, 0, 50, 0, 0, 0, 1, 4, 0, 0, 0, 30, 0, 0, 0, 2, //
    4, 0, 0, 0, 20, 0, 0, 0, 4, 4, 0, 0, 0, 10, 0, 0, 0, 8,
];

fn term(coefficient: i32, group: u32) -> Term {
    Term { coefficient, group }
}

// The break booked by calls.
pub fn break_a(rt: &impl Abort) -> Draft {
    let mut draft = Draft::new();
    for spot in 0..4 {
        assert_eq!(rt; draft.declare(101 + spot), Ok(spot));
    }
    let seconds = [term(30, 1), term(20, 2), term(10, 4), term(10, 8)];
    assert_eq!(rt; draft.post(0, 1, 40, &seconds), Ok(()));
    for (amount, group) in [(50, 1), (30, 2), (20, 4), (10, 8)] {
        assert_eq!(rt; draft.price(amount, group), Ok(()));
    }
    draft
}

#[test]
fn a_break_has_the_file_that_is_written_out(rt: HostRuntime) -> Result<(), Fail> {
    let heap = rt.alloc();
    let booked = break_a(&rt).lock();
    let mut space = [UNWRITTEN; 99];
    assert_eq!(rt; write(&booked, &mut space), Ok(99));
    assert_eq!(rt; space, BREAK_A);
    let told = assert_accepted(&rt, heap, &BREAK_A, "break A")?;
    assert_eq!(rt; Held::of(heap, &told)?, Held::of(heap, &booked)?);
    assert_eq!(rt; told.unused_places(), 508);
    Ok(())
}

// Lengths at which the file of the break is cut, from the one to the other, and the fault that is then told.
type Cut = (usize, usize, Option<(usize, FileFault)>);

static CUTS: [Cut; 27] = [
    (0, 0, None),
    (1, 4, Some((0, Flaw))),
    (5, 5, None),
    (6, 9, Some((5, Flaw))),
    (10, 10, None),
    (11, 14, Some((10, Flaw))),
    (15, 15, None),
    (16, 19, Some((15, Flaw))),
    (20, 20, None),
    (21, 26, Some((20, Flaw))),
    // The rule without its terms.
    (27, 27, Some((20, Cause(Blank)))),
    (28, 35, Some((27, Flaw))),
    (36, 36, None),
    (37, 44, Some((36, Flaw))),
    (45, 45, None),
    (46, 53, Some((45, Flaw))),
    (54, 54, None),
    (55, 62, Some((54, Flaw))),
    (63, 63, None),
    (64, 71, Some((63, Flaw))),
    (72, 72, None),
    (73, 80, Some((72, Flaw))),
    (81, 81, None),
    (82, 89, Some((81, Flaw))),
    (90, 90, None),
    (91, 98, Some((90, Flaw))),
    (99, 99, None),
];

#[test]
fn a_break_is_cut_at_every_byte(rt: HostRuntime) -> Result<(), Fail> {
    let heap = rt.alloc();
    let mut lengths = 0..100usize;
    for &(from, to, told) in &CUTS {
        for length in from..=to {
            assert_eq!(rt; lengths.next(), Some(length));
            let bytes = BREAK_A.get(..length).ok_or("too long")?;
            match told {
                None => {
                    assert_accepted(&rt, heap, bytes, format_args!("cut at {length}"))?;
                }
                Some((place, fault)) => {
                    let refusal = bad_file(place, fault);
                    assert_refused(&rt, heap, bytes, refusal, format_args!("cut at {length}"))?;
                }
            }
        }
    }
    assert_eq!(rt; lengths.next(), None);
    Ok(())
}

// The smallest and largest house numbers, rule numbers, bounds, coefficients and amounts, each of either sign.
static EXTREMES: [u8; 78] = [
    1, 0, 0, 0, 0, 1, 255, 255, 255, 255, //
    2, 0, 0, 0x3b, 0x9a, 0xca, 0x00, 3, 0x00, 0x0f, 0x42, 0x40, 0, 0, 0, 3, //
    2, 63, 2, 0xc4, 0x65, 0x36, 0x00, 3, 0xff, 0xf0, 0xbd, 0xc0, 0, 0, 0, 2, //
    3, 255, 255, 255, 255, 0, 0, 0, 1, //
    4, 0xff, 0xf0, 0xbd, 0xc0, 0, 0, 0, 1, 4, 0x00, 0x0f, 0x42, 0x40, 0, 0, 0, 3, //
    4, 255, 255, 255, 254, 0, 0, 0, 2,
];

#[test]
fn numbers_of_either_sign_are_told(rt: HostRuntime) -> Result<(), Fail> {
    let heap = rt.alloc();
    let told = assert_accepted(&rt, heap, &EXTREMES, "extremes")?;
    assert_eq!(rt; told.houses(), [0, u32::MAX].as_slice());
    let first = told.rule(0).ok_or("no rule 0")?;
    assert_eq!(rt;
        (first.relation, first.bound),
        (Relation::Equal, 1_000_000_000)
    );
    assert_eq!(rt; first.terms, [term(1_000_000, 3)].as_slice());
    let last = told.rule(63).ok_or("no rule 63")?;
    assert_eq!(rt;
        (last.relation, last.bound),
        (Relation::AtLeast, -1_000_000_000)
    );
    assert_eq!(rt; last.terms, [term(-1_000_000, 2), term(-1, 1)].as_slice());
    let amounts = told
        .prices()
        .iter()
        .map(|price| (price.amount, price.group));
    let amounts: Vec<(i32, u32)> = amounts.collect(heap)?;
    assert_eq!(rt;
        amounts.as_slice(),
        [(-1_000_000, 1), (1_000_000, 3), (-2, 2)].as_slice()
    );
    assert_eq!(rt; told.unused_places(), 509);
    Ok(())
}
