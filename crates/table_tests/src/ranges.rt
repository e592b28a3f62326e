// Tests of how large the entries of a table may be.
use crate::checks::Checks;
use lineup::Refusal::*;
use lineup::to_values;
use std::alloc::{AllocError, Global};
use std::test::Fail;

const MOST: i64 = 1_000_000_000_000_000;

// A table of zeros but for this entry at its start, and one but for this entry at its end.
fn with_entry(heap: Global, length: usize, entry: i64) -> Result<[Vec<i64>; 2], AllocError> {
    let mut starts = vec![in heap; 0; length]?;
    let mut ends = vec![in heap; 0; length]?;
    if let Some(place) = starts.first_mut() {
        *place = entry;
    }
    if let Some(place) = ends.last_mut() {
        *place = entry;
    }
    Ok([starts, ends])
}

#[test]
fn entries_reach_to_the_limits(rt: HostRuntime) -> Result<(), Fail> {
    let heap = rt.alloc();
    let checks = Checks { rt: &rt, heap };
    for length in [1, 2, 16, 1_024] {
        for entry in [MOST, -MOST] {
            for table in with_entry(heap, length, entry)? {
                checks.restored(&table)?;
            }
        }
    }
    Ok(())
}

#[test]
fn at_the_limits_an_odd_length_is_odd(rt: HostRuntime) -> Result<(), Fail> {
    let heap = rt.alloc();
    let checks = Checks { rt: &rt, heap };
    for length in [3, 2_048] {
        for entry in [MOST, -MOST] {
            for table in with_entry(heap, length, entry)? {
                checks.refused(&table, OddLength)?;
            }
        }
    }
    Ok(())
}

#[test]
fn a_larger_entry_is_out_of_range(rt: HostRuntime) -> Result<(), Fail> {
    let heap = rt.alloc();
    let checks = Checks { rt: &rt, heap };
    for length in [1, 2, 3, 16, 1_023, 1_024, 2_048] {
        for entry in [MOST + 1, -MOST - 1, i64::MAX, i64::MIN] {
            for table in with_entry(heap, length, entry)? {
                checks.refused(&table, OutOfRange)?;
            }
        }
    }
    Ok(())
}

// The values of a table all of whose entries are the same: each is that entry, times the number of groups inside.
fn doubled(heap: Global, length: u32, entry: i64) -> Result<Vec<i64>, AllocError> {
    (0..length)
        .map(|group| entry.wrapping_mul(2i64.wrapping_pow(group.count_ones())))
        .collect(heap)
}

#[test]
fn a_result_may_be_larger(rt: HostRuntime) -> Result<(), Fail> {
    let heap = rt.alloc();
    let checks = Checks { rt: &rt, heap };
    for entry in [MOST, -MOST] {
        let terms = vec![in heap; entry; 1_024]?;
        let values = doubled(heap, 1_024, entry)?;
        assert_eq!(rt; values.last().copied(), Some(entry.wrapping_mul(1_024)));
        checks.turns(to_values, &terms, &values)?;
        checks.refused(&values, OutOfRange)?;
    }
    Ok(())
}
