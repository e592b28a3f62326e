// Random sheets of a few spots.
use crate::bookings::declare_spots;
use crate::numbers::Generator;
use crate::rules::sum_at;
use lineup::{Draft, Locked, Relation, Term};
use std::alloc::{AllocError, Global};

// How many spots a sheet has, and how many rules and prices are tried on it.
#[derive(Clone, Copy)]
pub struct Size {
    pub spots: u32,
    pub rules: u8,
    pub prices: u32,
}

// The most terms of a rule.
const MOST_TERMS: u32 = 4;

impl Generator {
    // A group of one to three spots.
    pub fn group(&mut self, spots: u32) -> u32 {
        let mut group = 0;
        for _ in 0..=self.below(3) {
            group |= 1u32.wrapping_shl(self.below(spots));
        }
        group
    }

    // The terms of a rule, each of another group.
    fn terms(&mut self, heap: Global, spots: u32) -> Result<Vec<Term>, AllocError> {
        let mut terms: Vec<Term> = Vec::new(heap);
        let more = self.below(MOST_TERMS);
        for _ in 0..=more {
            let term = Term {
                coefficient: self.small(),
                group: self.group(spots),
            };
            if terms.iter().all(|other| other.group != term.group) {
                terms.push(term)?;
            }
        }
        Ok(terms)
    }

    // A relation and a bound that a sum meets, if barely.
    fn relation_to(&mut self, sum: i32) -> (Relation, i32) {
        match self.below(5) {
            0 => (Relation::Equal, sum),
            1 => (Relation::AtMost, sum),
            2 => (Relation::AtMost, sum.wrapping_add(1)),
            3 => (Relation::AtLeast, sum),
            _ => (Relation::AtLeast, sum.wrapping_sub(1)),
        }
    }
}

// Posts rules that one line-up meets.
fn post_rules(
    heap: Global,
    generator: &mut Generator,
    draft: &mut Draft,
    size: Size,
) -> Result<(), AllocError> {
    let line_up = generator.below(1u32.wrapping_shl(size.spots));
    for number in 0..size.rules {
        let terms = generator.terms(heap, size.spots)?;
        let sum = i32::try_from(sum_at(&terms, line_up)).unwrap_or(0);
        let (relation, bound) = generator.relation_to(sum);
        let _ = draft.post(number, relation.number(), bound, &terms);
    }
    Ok(())
}

fn set_prices(generator: &mut Generator, draft: &mut Draft, size: Size) {
    for _ in 0..size.prices {
        let _ = draft.price(generator.small(), generator.group(size.spots));
    }
}

// A sheet, locked, with rules that one line-up meets. What is refused is not in it.
pub fn random_sheet(
    heap: Global,
    generator: &mut Generator,
    size: Size,
) -> Result<Locked, AllocError> {
    let mut draft = Draft::new();
    let _ = declare_spots(&mut draft, size.spots);
    post_rules(heap, generator, &mut draft, size)?;
    set_prices(generator, &mut draft, size);
    Ok(draft.lock())
}
