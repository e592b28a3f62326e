// Tests of the lengths that a table may have.
use crate::checks::Checks;
use lineup::Refusal::*;
use std::alloc::{AllocError, Global};
use std::test::Fail;

// The table whose entry g is 7 more than g.
fn rising(heap: Global, length: u32) -> Result<Vec<i64>, AllocError> {
    (0..length).map(|group| 7 + i64::from(group)).collect(heap)
}

// The terms of that table: the constant is 7, and each spot alone is worth as much as its bit.
fn bit_terms(heap: Global, length: u32) -> Result<Vec<i64>, AllocError> {
    (0..length)
        .map(|group| match group.count_ones() {
            0 => 7,
            1 => i64::from(group),
            _ => 0,
        })
        .collect(heap)
}

#[test]
fn a_table_has_1_to_1024_entries(rt: HostRuntime) -> Result<(), Fail> {
    let heap = rt.alloc();
    let checks = Checks { rt: &rt, heap };
    for length in [1, 2, 4, 8, 16, 32, 64, 128, 256, 512, 1_024] {
        checks.belong(&bit_terms(heap, length)?, &rising(heap, length)?)?;
    }
    Ok(())
}

#[test]
fn other_lengths_are_refused(rt: HostRuntime) -> Result<(), Fail> {
    let heap = rt.alloc();
    let checks = Checks { rt: &rt, heap };
    for length in [0, 3, 5, 6, 7, 9, 1_023, 1_025, 1_536, 2_048, 4_096] {
        checks.refused(&rising(heap, length)?, OddLength)?;
    }
    Ok(())
}
