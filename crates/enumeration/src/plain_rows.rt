// Which refusals fit a spot, a rule or a price of a file, by plain loops: tests of its own, on purpose, and nothing that the part computes.
use crate::plain_sheets::{PlainRule, PlainSheet, Product};

fn holds(group: u32, spot: u32) -> bool {
    group.wrapping_shr(spot) % 2 == 1
}

// The group has a spot that is not declared.
fn has_stranger(group: u32, spots: usize) -> bool {
    (0..u32::BITS).any(|spot| holds(group, spot) && spot as usize >= spots)
}

// How many spots are in some of the groups.
fn count_named(products: &[Product]) -> usize {
    (0..u32::BITS)
        .filter(|spot| products.iter().any(|(_, group)| holds(*group, *spot)))
        .count()
}

fn is_beyond(number: i32, most: i64) -> bool {
    let number = i64::from(number);
    number > most || number < most.wrapping_neg()
}

// Two of the products have the same group.
fn has_twins(products: &[Product]) -> bool {
    products.iter().enumerate().any(|(i, (_, group))| {
        products
            .iter()
            .enumerate()
            .any(|(j, (_, other))| i < j && group == other)
    })
}

// The number of the first of the rows that fits.
fn first(rows: &[(bool, u8)]) -> Option<u8> {
    rows.iter()
        .find(|(fits, _)| *fits)
        .map(|(_, number)| *number)
}

pub fn spot_fault(sheet: &PlainSheet, house: u32) -> Option<u8> {
    first(&[
        (sheet.houses.len() >= 32, 2),
        (sheet.houses.iter().any(|other| *other == house), 3),
    ])
}

// A coefficient, the bound, the number or the relation is none that a rule may have.
fn is_out_of_range(rule: &PlainRule) -> bool {
    let bad_term = |term: &Product| term.0 == 0 || is_beyond(term.0, 1_000_000);
    rule.terms.iter().any(|term| bad_term(term))
        || is_beyond(rule.bound, 1_000_000_000)
        || rule.number > 63
        || rule.relation > 2
}

pub fn rule_fault(sheet: &PlainSheet, rule: &PlainRule) -> Option<u8> {
    let spots = sheet.houses.len();
    let terms = rule.terms.as_slice();
    let places = sheet.term_count().wrapping_add(terms.len());
    first(&[
        (
            terms.iter().any(|(_, group)| has_stranger(*group, spots)),
            1,
        ),
        (places > 512, 2),
        (has_twins(terms), 3),
        (
            terms.is_empty() || terms.iter().any(|(_, group)| *group == 0),
            4,
        ),
        (is_out_of_range(rule), 5),
        (count_named(terms) > 10, 6),
    ])
}

pub fn price_fault(sheet: &PlainSheet, price: Product) -> Option<u8> {
    let (amount, group) = price;
    first(&[
        (has_stranger(group, sheet.houses.len()), 1),
        (sheet.prices.len() >= 128, 2),
        (sheet.prices.iter().any(|(_, other)| *other == group), 3),
        (group == 0, 4),
        (amount == 0 || is_beyond(amount, 1_000_000), 5),
        (count_named(&[price]) > 10, 6),
    ])
}
