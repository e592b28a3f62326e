// The link sets of a sheet by plain search: by functions of its own, on purpose.
use crate::lawful::{live_rules, spot_count};
use crate::rules::named;
use lineup::Locked;
use std::alloc::{AllocError, Global};

// The groups of spots that rules and prices name.
fn groups(heap: Global, sheet: &Locked) -> Result<Vec<u32>, AllocError> {
    live_rules(heap, sheet)?
        .iter()
        .map(|rule| named(rule.terms))
        .chain(sheet.prices().iter().map(|price| price.group))
        .collect(heap)
}

// The spots that a group reaches by way of one that is not below a spot.
fn reached(groups: &[u32], spot: u32, from: u32) -> u32 {
    groups
        .iter()
        .filter(|group| (from & **group).wrapping_shr(spot) != 0)
        .fold(from, |reached, group| reached | *group)
}

// The lower spots that a spot reaches over groups, where each spot on the way is a higher one.
fn link_set(groups: &[u32], spot: u32) -> u32 {
    let alone = 1u32.wrapping_shl(spot);
    let all = (0..u32::BITS).fold(alone, |from, _| reached(groups, spot, from));
    all & alone.wrapping_sub(1)
}

// The link set of each spot.
pub fn link_sets(heap: Global, sheet: &Locked) -> Result<Vec<u32>, AllocError> {
    let groups = groups(heap, sheet)?;
    (0..spot_count(sheet))
        .map(|spot| link_set(&groups, spot))
        .collect(heap)
}
