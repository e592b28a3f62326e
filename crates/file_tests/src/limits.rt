// Tests of files as long as they can be, and one record or byte longer.
use crate::desk::Record::*;
use crate::desk::*;
use lineup::FileFault::*;
use lineup::Refusal::*;
use lineup::{FileFault, MOST_FILE};
use std::alloc::{AllocError, Global};
use std::process::Abort;
use std::test::Fail;

// What stands at the end of a file, and what is told of it.
type Ending = (&'static [Record], Option<(usize, FileFault)>);

// Puts each ending behind the same beginning.
fn assert_endings<R: Abort>(
    rt: &R,
    heap: Global,
    beginning: &[u8],
    endings: &[Ending],
) -> Result<(), Fail> {
    for (i, &(records, told)) in endings.iter().enumerate() {
        let mut bytes = beginning.to_vec(heap)?;
        put_all(&mut bytes, records)?;
        match told {
            None => {
                assert_accepted(rt, heap, &bytes, format_args!("ending {i}"))?;
            }
            Some((place, fault)) => {
                let refusal = bad_file(place, fault);
                assert_refused(rt, heap, &bytes, refusal, format_args!("ending {i}"))?;
            }
        }
    }
    Ok(())
}

// The first rule ends at 42, where its 64 terms begin, and these end at 618.
static BEHIND_64_TERMS: [Ending; 7] = [
    (&[], None),
    (&[Price(5, 1)], None),
    (&[Term(1, 65)], Some((618, Cause(Crowded)))),
    (&[Term(0, 1)], Some((618, Cause(Crowded)))),
    (&[Term(1, 65), Bytes(&[3])], Some((618, Cause(Crowded)))),
    (&[Bytes(&[3])], Some((618, Flaw))),
    (&[Bytes(&[3, 0, 0, 0, 1, 0, 0, 0])], Some((618, Flaw))),
];

// The same where the rule itself would be refused.
static BEHIND_64_TERMS_OF_RULE_64: [Ending; 3] = [
    (&[], Some((35, Cause(OutOfRange)))),
    (&[Term(1, 65)], Some((618, Cause(Crowded)))),
    (&[Bytes(&[3])], Some((618, Flaw))),
];

#[test]
fn a_rule_has_64_terms(rt: HostRuntime) -> Result<(), Fail> {
    let heap = rt.alloc();
    for (number, endings) in [
        (0, BEHIND_64_TERMS.as_slice()),
        (64, BEHIND_64_TERMS_OF_RULE_64.as_slice()),
    ] {
        let mut bytes = file_of(heap, 7, &[Rule(number, 1, 40)])?;
        put_terms(&mut bytes, 64)?;
        assert_eq!(rt; bytes.len(), 618);
        assert_endings(&rt, heap, &bytes, endings)?;
    }
    Ok(())
}

// Eight rules of 64 terms end at 4,699.
static BEHIND_512_TERMS: [Ending; 9] = [
    (&[], None),
    (&[Price(5, 1)], None),
    (&[Rule(8, 1, 40), Term(1, 1)], Some((4699, Cause(Full)))),
    (
        &[Rule(64, 3, 40), Term(0, 0), Term(0, 0)],
        Some((4699, Cause(Full))),
    ),
    (
        &[Rule(8, 1, 40), Term(1, 0x80)],
        Some((4699, Cause(OffSheet))),
    ),
    (&[Rule(8, 1, 40)], Some((4699, Cause(Blank)))),
    (&[Rule(7, 1, 40), Term(1, 1)], Some((4699, Flaw))),
    (
        &[Rule(8, 1, 40), Term(1, 1), Bytes(&[3])],
        Some((4715, Flaw)),
    ),
    (
        &[Rule(8, 1, 40), Term(1, 1), Bytes(&[9])],
        Some((4699, Cause(Full))),
    ),
];

#[test]
fn a_sheet_has_512_places(rt: HostRuntime) -> Result<(), Fail> {
    let heap = rt.alloc();
    let mut bytes = file_of(heap, 7, &[])?;
    for number in 0..8 {
        Rule(number, 1, 40).put(&mut bytes)?;
        put_terms(&mut bytes, 64)?;
    }
    assert_eq!(rt; bytes.len(), 4699);
    assert_endings(&rt, heap, &bytes, &BEHIND_512_TERMS)?;
    // A 65th term is told before it is seen that all places are used.
    Rule(8, 1, 40).put(&mut bytes)?;
    put_terms(&mut bytes, 65)?;
    let refusal = bad_file(5282, Cause(Crowded));
    assert_refused(&rt, heap, &bytes, refusal, "65 terms")
}

// Where two places are unused.
static BEHIND_510_TERMS: [Ending; 2] = [
    (&[Rule(8, 1, 40), Term(1, 1), Term(1, 2)], None),
    (
        &[Rule(8, 1, 40), Term(1, 1), Term(1, 2), Term(1, 3)],
        Some((4681, Cause(Full))),
    ),
];

#[test]
fn the_last_two_places_are_used(rt: HostRuntime) -> Result<(), Fail> {
    let heap = rt.alloc();
    let mut bytes = file_of(heap, 7, &[])?;
    for (number, count) in (0..).zip([64, 64, 64, 64, 64, 64, 64, 62]) {
        Rule(number, 1, 40).put(&mut bytes)?;
        put_terms(&mut bytes, count)?;
    }
    assert_eq!(rt; bytes.len(), 4681);
    assert_endings(&rt, heap, &bytes, &BEHIND_510_TERMS)
}

// 128 prices over eight spots end at 1,192.
static BEHIND_128_PRICES: [Ending; 7] = [
    (&[], None),
    (&[Price(5, 129)], Some((1192, Cause(Full)))),
    (&[Price(5, 1)], Some((1192, Cause(Full)))),
    (&[Price(0, 1)], Some((1192, Cause(Full)))),
    (&[Price(0, 0)], Some((1192, Cause(Full)))),
    (&[Price(5, 0x100)], Some((1192, Cause(OffSheet)))),
    (&[Bytes(&[4])], Some((1192, Flaw))),
];

#[test]
fn a_list_has_128_prices(rt: HostRuntime) -> Result<(), Fail> {
    let heap = rt.alloc();
    let mut bytes = file_of(heap, 8, &[])?;
    put_prices(&mut bytes, 128)?;
    assert_eq!(rt; bytes.len(), 1192);
    assert_endings(&rt, heap, &bytes, &BEHIND_128_PRICES)
}

// The longest file: 32 spots, 64 rules of eight terms, and 128 prices.
pub fn longest_file(heap: Global) -> Result<Vec<u8>, AllocError> {
    let mut bytes = file_of(heap, 32, &[])?;
    for number in 0..64 {
        Rule(number, number % 3, 40).put(&mut bytes)?;
        put_terms(&mut bytes, 8)?;
    }
    put_prices(&mut bytes, 128)?;
    Ok(bytes)
}

// No byte more is taken, whatever it is, nor is a record.
static BEHIND_ALL: [Ending; 11] = [
    (&[], None),
    (&[Bytes(&[0])], Some((6368, Flaw))),
    (&[Bytes(&[1])], Some((6368, Flaw))),
    (&[Bytes(&[2])], Some((6368, Flaw))),
    (&[Bytes(&[3])], Some((6368, Flaw))),
    (&[Bytes(&[4])], Some((6368, Flaw))),
    (&[Bytes(&[255])], Some((6368, Flaw))),
    (&[Spot(99)], Some((6368, Flaw))),
    (&[Rule(64, 1, 40)], Some((6368, Flaw))),
    (&[Term(1, 9)], Some((6368, Flaw))),
    (&[Price(5, 129)], Some((6368, Cause(Full)))),
];

#[test]
fn the_longest_file_has_6368_bytes(rt: HostRuntime) -> Result<(), Fail> {
    let heap = rt.alloc();
    let bytes = longest_file(heap)?;
    assert_eq!(rt; bytes.len(), 6368);
    assert_eq!(rt; MOST_FILE, 6368);
    let told = assert_accepted(&rt, heap, &bytes, "the longest file")?;
    assert_eq!(rt; told.houses().len(), 32);
    assert_eq!(rt; told.prices().len(), 128);
    assert_eq!(rt; told.unused_places(), 0);
    for number in 0..64 {
        let terms = told.rule(number).map(|rule| rule.terms.len());
        assert_eq!(rt; terms, Some(8), "rule {number}");
    }
    assert_endings(&rt, heap, &bytes, &BEHIND_ALL)
}
