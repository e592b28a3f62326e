// Tests of reading any bytes by any plan.
use crate::breaks::*;
use crate::desk::*;
use lineup::*;
use std::alloc::Global;
use std::process::Abort;
use std::test::Fail;

#[test]
fn bytes_have_their_codes(rt: HostRuntime) {
    for (byte, code) in (0..).zip([Code::Out, Code::In, Code::Free, Code::Dead]) {
        assert_eq!(rt; Code::from(byte), code);
        assert_eq!(rt; code.number(), byte);
    }
}

#[test]
fn any_other_byte_is_dead(rt: HostRuntime) {
    for byte in 4..=u8::MAX {
        assert_eq!(rt; Code::from(byte), Code::Dead);
    }
}

// Bytes of mixed meaning for the plan of break A, with codes and with others.
const MIXED_BYTES: [u8; 15] = [2, 7, 2, 2, 255, 1, 2, 0, 1, 2, 3, 2, 5, 2, 2];

// The sheet whose plan is used, the bytes that are read, and the line-ups that they list.
type BytesRead = (Book, &'static [u8], &'static [u32]);

static BYTES_READ: [BytesRead; 17] = [
    // Each byte above 2 is read as out, in the cell of one spot.
    (TWICE_IS_ONE, &[0], &[0]),
    (TWICE_IS_ONE, &[1], &[1]),
    (TWICE_IS_ONE, &[2], &[0, 1]),
    (TWICE_IS_ONE, &[3], &[0]),
    (TWICE_IS_ONE, &[4], &[0]),
    (TWICE_IS_ONE, &[255], &[0]),
    // And in those of four spots.
    (BREAK_A, &[0; 15], &[0]),
    (BREAK_A, &[3; 15], &[0]),
    (BREAK_A, &[255; 15], &[0]),
    (BREAK_A, &[1; 15], &[15]),
    (
        BREAK_A,
        &[2; 15],
        &[0, 8, 4, 12, 2, 10, 6, 14, 1, 9, 5, 13, 3, 11, 7, 15],
    ),
    (BREAK_A, &MIXED_BYTES, &[0, 4, 12, 9, 3, 7, 15]),
    // Codes of other sheets: those of break A, those of two spots that both run, and those of one spot that runs alone.
    (
        ONE_OF_TWO,
        &[2, 2, 0, 2, 2, 2, 3, 2, 2, 2, 3, 2, 0, 2, 3],
        &[0, 2, 1],
    ),
    (ONE_OF_TWO, &[1, 3, 1], &[3]),
    (BOTH_OF_TWO, &[2, 1, 0], &[2, 1]),
    (TWICE_IS_ONE, &[1, 3, 1], &[1]),
    (TWICE_IS_ONE, &[2, 1, 0], &[0, 1]),
];

// A desk that has the plan of a sheet, and these bytes as choice table.
fn with_bytes<'a, R: Abort>(
    rt: &'a R,
    heap: Global,
    book: &Book,
    bytes: &[u8],
) -> Result<Desk<'a, R>, Fail> {
    let mut plan = Plan::new();
    let _ = solve(
        &book.sheet(rt, heap)?,
        &Card::new(),
        &mut plan,
        &mut [0; 15],
    );
    let mut desk = Desk::new(rt, heap, book, &[], 0)?;
    desk.plan = plan;
    desk.table = bytes.to_vec(heap)?;
    Ok(desk)
}

#[test]
fn any_bytes_list_line_ups(rt: HostRuntime) -> Result<(), Fail> {
    for &(book, bytes, line_ups) in &BYTES_READ {
        with_bytes(&rt, rt.alloc(), &book, bytes)?.assert_lists(line_ups);
    }
    Ok(())
}

// The line-up of each group of spots as switches, by these bytes.
static INSTANCES: [u32; 16] = [0, 9, 0, 3, 4, 9, 4, 7, 0, 9, 0, 3, 12, 9, 12, 15];

#[test]
fn switches_choose_by_any_bytes(rt: HostRuntime) -> Result<(), Fail> {
    let desk = with_bytes(&rt, rt.alloc(), &BREAK_A, &MIXED_BYTES)?;
    for (switches, &line_up) in (0..).zip(&INSTANCES) {
        desk.assert_instance(switches, Ok(line_up));
    }
    Ok(())
}

#[test]
fn a_plan_of_no_spots_reads_nothing(rt: HostRuntime) {
    let plan = Plan::new();
    assert!(rt; plan.link_sets().is_empty());
    assert_eq!(rt; plan.need(), 0);
    for bytes in [&[] as &[u8], &[1], &[2, 255]] {
        assert_eq!(rt; instance(&plan, bytes, 0), Ok(0));
        assert_eq!(rt; instance(&plan, bytes, 1), Err(Refusal::OffSheet));
        assert_eq!(rt; next(&plan, bytes, None), Ok(Some(0)));
        assert_eq!(rt; next(&plan, bytes, Some(0)), Ok(None));
        assert_eq!(rt; next(&plan, bytes, Some(1)), Err(Refusal::OffSheet));
    }
}
