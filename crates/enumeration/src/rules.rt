// A rule's table over the spots that the rule names, compared with the rule's sum at every line-up of them: by functions of its own, on purpose.
use lineup::{Term, to_terms, to_values};
use std::alloc::{AllocError, Global};
use std::fmt;

// The group of all spots that some term names.
pub fn named(terms: &[Term]) -> u32 {
    terms.iter().fold(0u32, |group, term| group | term.group)
}

// The spots of a group in rising order. Each stands as the group of that spot alone.
fn spots_of(heap: Global, group: u32) -> Result<Vec<u32>, AllocError> {
    (0..u32::BITS)
        .map(|spot| 1u32.wrapping_shl(spot))
        .filter(|alone| group & *alone != 0)
        .collect(heap)
}

// A group of some spots as a place in a table over those spots: bit i stands for the spot at place i.
fn packed(spots: &[u32], group: u32) -> usize {
    spots.iter().rev().fold(
        0usize,
        |place, spot| place << 1 | usize::from(group & *spot != 0),
    )
}

// The group that stands at a place.
fn unpacked(spots: &[u32], place: usize) -> u32 {
    spots
        .iter()
        .zip(0..u32::BITS)
        .filter(|(_, bit)| place.wrapping_shr(*bit) % 2 == 1)
        .fold(0u32, |group, (spot, _)| group | *spot)
}

// The table with each coefficient at its group, over these spots.
fn term_table(heap: Global, spots: &[u32], terms: &[Term]) -> Result<Vec<i64>, AllocError> {
    let length = 1usize.wrapping_shl(named(terms).count_ones());
    let mut table = vec![in heap; 0i64; length]?;
    for term in terms {
        if let Some(entry) = table.get_mut(packed(spots, term.group)) {
            *entry = entry.wrapping_add(i64::from(term.coefficient));
        }
    }
    Ok(table)
}

// What the terms are worth together at a line-up.
pub fn sum_at(terms: &[Term], line_up: u32) -> i64 {
    terms
        .iter()
        .filter(|term| term.group & line_up == term.group)
        .fold(
            0i64,
            |sum, term| sum.wrapping_add(i64::from(term.coefficient)),
        )
}

// How many entries of a table of values are the sums of the terms.
fn count_sums(spots: &[u32], terms: &[Term], values: &[i64]) -> usize {
    values
        .iter()
        .enumerate()
        .filter(|(place, value)| sum_at(terms, unpacked(spots, *place)) == **value)
        .count()
}

// How the conversion of a rule's table went.
#[derive(Drop)]
pub struct Comparison {
    spots: usize,
    // Line-ups at which the table has the rule's sum, and line-ups at all.
    agreed: usize,
    line_ups: usize,
    // The table of terms came back.
    restored: bool,
}

// Converts a rule's table into values and back.
pub fn compare(heap: Global, terms: &[Term]) -> Result<Comparison, AllocError> {
    let spots = spots_of(heap, named(terms))?;
    let first = term_table(heap, &spots, terms)?;
    let mut table = first.clone()?;
    let there = to_values(&mut table);
    let agreed = count_sums(&spots, terms, &table);
    let back = to_terms(&mut table);
    Ok(Comparison {
        spots: spots.len(),
        agreed,
        line_ups: table.len(),
        restored: there.is_ok() && back.is_ok() && table == first,
    })
}

impl fmt::Display for Comparison {
    fn fmt<W: fmt::Write>(&self, f: &mut fmt::Formatter<W>) -> fmt::Result {
        let spots = self.spots;
        let agreed = self.agreed;
        let line_ups = self.line_ups;
        let end = if self.restored {
            "and back"
        } else {
            "and not back"
        };
        write!(
            f,
            "(spots: {spots}): {agreed} of {line_ups} sums agree, {end}"
        )
    }
}
