// What the conversions of a table should give by plain enumeration: sums of its own, on purpose, and nothing that the part computes.
use lineup::{MOST_ENTRY, Refusal, to_terms, to_values};

// A conversion of a table, with the one back.
pub trait Way {
    fn convert(table: &mut [i64]) -> Result<(), Refusal>;

    fn back(table: &mut [i64]) -> Result<(), Refusal>;

    // What the converted table should have at a group.
    fn entry_at(table: &[i64], group: usize) -> i64;
}

pub struct ToValues;

impl Way for ToValues {
    fn convert(table: &mut [i64]) -> Result<(), Refusal> {
        to_values(table)
    }

    fn back(table: &mut [i64]) -> Result<(), Refusal> {
        to_terms(table)
    }

    fn entry_at(table: &[i64], group: usize) -> i64 {
        sum_inside(table, group)
    }
}

pub struct ToTerms;

impl Way for ToTerms {
    fn convert(table: &mut [i64]) -> Result<(), Refusal> {
        to_terms(table)
    }

    fn back(table: &mut [i64]) -> Result<(), Refusal> {
        to_values(table)
    }

    fn entry_at(table: &[i64], group: usize) -> i64 {
        alternating_sum_inside(table, group)
    }
}

// The one group is inside the other.
fn is_inside(inner: usize, outer: usize) -> bool {
    inner & outer == inner
}

// The sum of the entries of all groups inside a group.
fn sum_inside(table: &[i64], group: usize) -> i64 {
    table
        .iter()
        .enumerate()
        .filter(|(inner, _)| is_inside(*inner, group))
        .fold(0i64, |sum, (_, entry)| sum.wrapping_add(*entry))
}

// The same sum, but an entry is subtracted where an odd number of the group's spots is not in the entry's own group.
fn alternating_sum_inside(table: &[i64], group: usize) -> i64 {
    table
        .iter()
        .enumerate()
        .filter(|(inner, _)| is_inside(*inner, group))
        .fold(0i64, |sum, (inner, entry)| {
            if (inner ^ group).count_ones() % 2 == 0 {
                sum.wrapping_add(*entry)
            } else {
                sum.wrapping_sub(*entry)
            }
        })
}

// A conversion takes every entry: none is larger than the limit.
pub fn is_in_range(table: &[i64]) -> bool {
    table.iter().all(|entry| entry.unsigned_abs() <= MOST_ENTRY)
}
