// Tests of files that no sheet has, since a record is of an unknown kind, is cut, is not to stand where it stands, or has a rule number that does
// not rise.
use crate::desk::Record::*;
use crate::desk::*;
use lineup::FileFault;
use lineup::FileFault::*;
use lineup::Refusal::*;
use std::test::Fail;

// So many spots, the records behind them, and the place of the flaw.
type FlawCase = (u32, &'static [Record], usize);

static UNKNOWN: [FlawCase; 7] = [
    (0, &[Bytes(&[0])], 0),
    (0, &[Bytes(&[5])], 0),
    (0, &[Bytes(&[255])], 0),
    (0, &[Bytes(&[0, 1, 0, 0, 0, 7])], 0),
    (2, &[Bytes(&[9, 1, 2])], 10),
    (1, &[Price(5, 1), Bytes(&[6])], 14),
    (1, &[Rule(0, 1, 40), Term(30, 1), Bytes(&[7])], 21),
];

static CUT: [FlawCase; 14] = [
    (0, &[Bytes(&[1])], 0),
    (0, &[Bytes(&[1, 0, 0, 0])], 0),
    (2, &[Bytes(&[1, 0])], 10),
    (0, &[Bytes(&[2])], 0),
    (1, &[Bytes(&[2, 0, 1, 0, 0, 0])], 5),
    (0, &[Bytes(&[3])], 0),
    (1, &[Rule(0, 1, 40), Bytes(&[3])], 12),
    (1, &[Rule(0, 1, 40), Bytes(&[3, 0, 0, 0, 1, 0, 0, 0])], 12),
    (1, &[Rule(0, 1, 40), Term(30, 1), Bytes(&[3, 0])], 21),
    (0, &[Bytes(&[4])], 0),
    (1, &[Bytes(&[4, 0, 0, 0, 5, 0, 0, 0])], 5),
    (1, &[Price(5, 1), Bytes(&[4])], 14),
    (1, &[Price(5, 1), Bytes(&[1])], 14),
    (1, &[Price(5, 1), Bytes(&[2])], 14),
];

// Spots come first, then rules, each before its terms, and then prices.
static OUT_OF_STAGE: [FlawCase; 11] = [
    (0, &[Term(30, 1)], 0),
    (1, &[Term(30, 1)], 5),
    (1, &[Term(30, 1), Rule(0, 1, 40), Term(30, 1)], 5),
    (1, &[Rule(0, 1, 40), Term(30, 1), Spot(8)], 21),
    (1, &[Rule(0, 1, 40), Term(30, 1), Bytes(&[1, 0])], 21),
    (1, &[Price(5, 1), Spot(8)], 14),
    (1, &[Price(5, 1), Rule(0, 1, 40), Term(30, 1)], 14),
    (1, &[Price(5, 1), Term(30, 1)], 14),
    (
        1,
        &[Rule(0, 1, 40), Term(30, 1), Price(5, 1), Term(2, 1)],
        30,
    ),
    (
        1,
        &[Rule(0, 1, 40), Term(30, 1), Price(5, 1), Rule(1, 1, 40)],
        30,
    ),
    (1, &[Rule(0, 1, 40), Term(30, 1), Price(5, 1), Spot(8)], 30),
];

static NOT_RISING: [FlawCase; 4] = [
    (
        1,
        &[Rule(3, 1, 40), Term(30, 1), Rule(3, 1, 40), Term(30, 1)],
        21,
    ),
    (
        1,
        &[Rule(3, 1, 40), Term(30, 1), Rule(2, 1, 40), Term(30, 1)],
        21,
    ),
    (
        1,
        &[Rule(63, 1, 40), Term(30, 1), Rule(0, 1, 40), Term(30, 1)],
        21,
    ),
    (
        1,
        &[
            Rule(3, 1, 40),
            Term(30, 1),
            Rule(7, 1, 40),
            Term(30, 1),
            Rule(5, 1, 40),
            Term(30, 1),
        ],
        37,
    ),
];

#[test]
fn a_flaw_is_told_at_its_place(rt: HostRuntime) -> Result<(), Fail> {
    let heap = rt.alloc();
    let cases = UNKNOWN.iter().chain(&CUT).chain(&OUT_OF_STAGE);
    for (i, &(count, records, place)) in cases.chain(&NOT_RISING).enumerate() {
        let bytes = file_of(heap, count, records)?;
        let refusal = bad_file(place, Flaw);
        assert_refused(&rt, heap, &bytes, refusal, format_args!("flaw {i}"))?;
    }
    Ok(())
}

// So many spots, the records behind them, and the place and the fault that are told though another fault stands in the file.
type FirstCase = (u32, &'static [Record], usize, FileFault);

// A rule is judged where its terms end, before the record that ends them, and is blamed at its own place.
static RULE_FIRST: [FirstCase; 9] = [
    (1, &[Rule(0, 1, 40), Bytes(&[9])], 5, Cause(Blank)),
    (1, &[Rule(0, 1, 40), Bytes(&[1])], 5, Cause(Blank)),
    (1, &[Rule(0, 1, 40), Bytes(&[2, 0])], 5, Cause(Blank)),
    (1, &[Rule(0, 1, 40), Bytes(&[4, 0])], 5, Cause(Blank)),
    (1, &[Rule(0, 1, 40), Spot(1)], 5, Cause(Blank)),
    (1, &[Rule(0, 1, 40), Rule(0, 1, 40)], 5, Cause(Blank)),
    (1, &[Rule(0, 1, 40), Price(5, 2)], 5, Cause(Blank)),
    (
        1,
        &[Rule(3, 1, 40), Term(1, 2), Rule(3, 1, 40)],
        5,
        Cause(OffSheet),
    ),
    (
        1,
        &[Rule(70, 1, 40), Term(1, 1), Rule(70, 1, 40)],
        5,
        Cause(OutOfRange),
    ),
];

// It is not judged where its terms end in a cut one, nor where its number does not rise or it stands behind a price.
static RULE_NOT_JUDGED: [FirstCase; 6] = [
    (1, &[Rule(0, 1, 40), Bytes(&[3, 0])], 12, Flaw),
    (
        1,
        &[Rule(64, 3, i32::MIN), Term(0, 2), Bytes(&[3])],
        21,
        Flaw,
    ),
    (
        1,
        &[Rule(3, 1, 40), Term(1, 1), Rule(3, 1, 40), Bytes(&[3])],
        21,
        Flaw,
    ),
    (1, &[Rule(3, 1, 40), Term(1, 1), Rule(3, 3, 40)], 21, Flaw),
    (1, &[Price(5, 1), Rule(64, 1, 40)], 14, Flaw),
    (1, &[Price(5, 1), Rule(0, 1, 40), Bytes(&[3])], 14, Flaw),
];

static OTHERS_FIRST: [FirstCase; 9] = [
    (1, &[Spot(1), Bytes(&[9])], 5, Cause(Twice)),
    (1, &[Bytes(&[9]), Spot(1)], 5, Flaw),
    (2, &[Spot(1), Spot(2)], 10, Cause(Twice)),
    (1, &[Rule(0, 1, 40), Term(1, 1), Spot(1)], 21, Flaw),
    (1, &[Price(5, 1), Spot(1)], 14, Flaw),
    (1, &[Price(0, 1), Price(5, 2)], 5, Cause(OutOfRange)),
    (1, &[Price(5, 2), Price(0, 1)], 5, Cause(OffSheet)),
    (
        1,
        &[Price(5, 1), Price(6, 1), Bytes(&[4])],
        14,
        Cause(Twice),
    ),
    (1, &[Price(5, 1), Bytes(&[0]), Price(5, 1)], 14, Flaw),
];

#[test]
fn of_two_faults_the_first_is_told(rt: HostRuntime) -> Result<(), Fail> {
    let heap = rt.alloc();
    let cases = RULE_FIRST.iter().chain(&RULE_NOT_JUDGED);
    for (i, &(count, records, place, fault)) in cases.chain(&OTHERS_FIRST).enumerate() {
        let bytes = file_of(heap, count, records)?;
        let refusal = bad_file(place, fault);
        assert_refused(&rt, heap, &bytes, refusal, format_args!("faults {i}"))?;
    }
    Ok(())
}
