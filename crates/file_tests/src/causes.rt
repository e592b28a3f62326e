// Tests of files whose records are sound, and ask of the sheet what it refuses.
use crate::desk::Record::*;
use crate::desk::*;
use lineup::FileFault::*;
use lineup::Refusal;
use lineup::Refusal::*;
use std::test::Fail;

// So many spots, the records behind them, and the place and the refusal that are told.
type CauseCase = (u32, &'static [Record], usize, Refusal);

static SPOTS: [CauseCase; 4] = [
    (1, &[Spot(1)], 5, Twice),
    (3, &[Spot(4), Spot(2)], 20, Twice),
    (32, &[Spot(99)], 160, Full),
    (32, &[Spot(1)], 160, Full),
];

static RULES: [CauseCase; 24] = [
    (0, &[Rule(0, 1, 40), Term(1, 1)], 0, OffSheet),
    (2, &[Rule(0, 1, 40), Term(1, 1), Term(1, 4)], 10, OffSheet),
    (31, &[Rule(0, 1, 40), Term(1, 1 << 31)], 155, OffSheet),
    (1, &[Rule(0, 1, 40), Term(1, 1), Term(2, 1)], 5, Twice),
    (
        2,
        &[Rule(0, 1, 40), Term(1, 1), Term(1, 2), Term(3, 1)],
        10,
        Twice,
    ),
    (0, &[Rule(0, 1, 40)], 0, Blank),
    (1, &[Rule(0, 1, 40), Term(1, 0)], 5, Blank),
    (1, &[Rule(0, 1, 40), Term(1, 1), Term(1, 0)], 5, Blank),
    (1, &[Rule(0, 1, 40), Term(0, 1)], 5, OutOfRange),
    (1, &[Rule(0, 1, 40), Term(1_000_001, 1)], 5, OutOfRange),
    (1, &[Rule(0, 1, 40), Term(-1_000_001, 1)], 5, OutOfRange),
    (1, &[Rule(0, 1, 40), Term(i32::MAX, 1)], 5, OutOfRange),
    (1, &[Rule(0, 1, 40), Term(i32::MIN, 1)], 5, OutOfRange),
    (1, &[Rule(0, 1, 1_000_000_001), Term(1, 1)], 5, OutOfRange),
    (1, &[Rule(0, 1, -1_000_000_001), Term(1, 1)], 5, OutOfRange),
    (1, &[Rule(0, 1, i32::MAX), Term(1, 1)], 5, OutOfRange),
    (1, &[Rule(0, 1, i32::MIN), Term(1, 1)], 5, OutOfRange),
    (1, &[Rule(64, 1, 40), Term(1, 1)], 5, OutOfRange),
    (1, &[Rule(255, 1, 40), Term(1, 1)], 5, OutOfRange),
    (
        1,
        &[Rule(63, 1, 40), Term(1, 1), Rule(64, 1, 40), Term(1, 1)],
        21,
        OutOfRange,
    ),
    (1, &[Rule(0, 3, 40), Term(1, 1)], 5, OutOfRange),
    (1, &[Rule(0, 255, 40), Term(1, 1)], 5, OutOfRange),
    (11, &[Rule(0, 1, 40), Term(1, 0x7ff)], 55, Crowded),
    (
        11,
        &[Rule(0, 1, 40), Term(1, 0x3f), Term(2, 0x7c0)],
        55,
        Crowded,
    ),
];

// Of several rows that fit a rule the uppermost is told.
static RULE_ROWS: [CauseCase; 5] = [
    (
        1,
        &[Rule(64, 3, i32::MIN), Term(0, 0), Term(0, 2), Term(0, 2)],
        5,
        OffSheet,
    ),
    (
        1,
        &[Rule(64, 3, i32::MIN), Term(0, 0), Term(0, 0)],
        5,
        Twice,
    ),
    (1, &[Rule(64, 3, i32::MIN)], 5, Blank),
    (
        11,
        &[Rule(64, 3, i32::MIN), Term(0, 0x7ff), Term(0, 0)],
        55,
        Blank,
    ),
    (11, &[Rule(64, 1, 40), Term(1, 0x7ff)], 55, OutOfRange),
];

static PRICES: [CauseCase; 13] = [
    (0, &[Price(5, 1)], 0, OffSheet),
    (2, &[Price(5, 4)], 10, OffSheet),
    (31, &[Price(5, 1 << 31)], 155, OffSheet),
    (1, &[Price(5, 1), Price(6, 1)], 14, Twice),
    (2, &[Price(5, 1), Price(5, 2), Price(5, 1)], 28, Twice),
    (0, &[Price(5, 0)], 0, Blank),
    (1, &[Price(5, 1), Price(5, 0)], 14, Blank),
    (1, &[Price(0, 1)], 5, OutOfRange),
    (1, &[Price(1_000_001, 1)], 5, OutOfRange),
    (1, &[Price(-1_000_001, 1)], 5, OutOfRange),
    (1, &[Price(i32::MAX, 1)], 5, OutOfRange),
    (1, &[Price(i32::MIN, 1)], 5, OutOfRange),
    (11, &[Price(5, 0x7ff)], 55, Crowded),
];

// Of several rows that fit a price the uppermost is told.
static PRICE_ROWS: [CauseCase; 6] = [
    (1, &[Price(0, 2)], 5, OffSheet),
    (2, &[Price(5, 1), Price(0, 1)], 19, Twice),
    (2, &[Price(5, 1), Price(1_000_001, 1)], 19, Twice),
    (1, &[Price(0, 0)], 5, Blank),
    (1, &[Price(1_000_001, 0)], 5, Blank),
    (11, &[Price(0, 0x7ff)], 55, OutOfRange),
];

#[test]
fn a_cause_is_told_at_its_place(rt: HostRuntime) -> Result<(), Fail> {
    let heap = rt.alloc();
    let cases = SPOTS.iter().chain(&RULES).chain(&RULE_ROWS);
    for (i, &(count, records, place, refusal)) in cases
        .chain(&PRICES)
        .chain(&PRICE_ROWS)
        .enumerate()
    {
        let bytes = file_of(heap, count, records)?;
        let refusal = bad_file(place, Cause(refusal));
        assert_refused(&rt, heap, &bytes, refusal, format_args!("cause {i}"))?;
    }
    Ok(())
}

// What a sheet takes at its limits.
static TAKEN: [(u32, &[Record]); 10] = [
    (0, &[]),
    (32, &[Rule(0, 1, 40), Term(1, 1 << 31), Price(5, 1 << 31)]),
    (1, &[Rule(63, 1, 1_000_000_000), Term(1_000_000, 1)]),
    (1, &[Rule(63, 2, -1_000_000_000), Term(-1_000_000, 1)]),
    (1, &[Rule(0, 0, 0), Term(-1, 1), Rule(1, 0, 0), Term(1, 1)]),
    (10, &[Rule(0, 1, 40), Term(1, 0x3ff)]),
    (
        10,
        &[
            Rule(0, 1, 40),
            Term(1, 0x3f),
            Term(2, 0x3c0),
            Term(3, 0x201),
        ],
    ),
    (1, &[Price(1_000_000, 1)]),
    (1, &[Price(-1_000_000, 1)]),
    (10, &[Price(5, 0x3ff), Price(5, 1)]),
];

#[test]
fn what_a_sheet_takes_is_read(rt: HostRuntime) -> Result<(), Fail> {
    let heap = rt.alloc();
    for (i, &(count, records)) in TAKEN.iter().enumerate() {
        let bytes = file_of(heap, count, records)?;
        assert_accepted(&rt, heap, &bytes, format_args!("taken {i}"))?;
    }
    Ok(())
}
