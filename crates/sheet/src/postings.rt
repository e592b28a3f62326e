// The arguments of a post, and which rows of refusal fit them whatever the sheet holds.
ghost use Rattle.std.specs.Prelude.{◌≡◌, ◌||◌, length, nat_le, nat_lt, unsigned_abs};
ghost use Rattle.terms.specs.Limits.{most_terms, most_named, most_bound};
ghost use Rattle.terms.specs.Tests.{any, is_empty};
ghost use Rattle.terms.specs.Groups.{size};
ghost use Rattle.terms.specs.Terms.{named, blank, unfit};
ghost use Rattle.sheet.specs.Limits.{rule_numbers};

use crate::limits::RULE_NUMBERS;
use terms::limits::{MOST_BOUND, MOST_NAMED, MOST_TERMS};
use terms::{Term, rows};

// A rule as it is asked for, which nobody has screened: a number that no relation has is refused as out of range.
#[derive(Clone, Copy)]
pub(crate) struct Posting<'a> {
    pub(crate) number: u8,
    pub(crate) relation: u8,
    pub(crate) bound: i32,
    pub(crate) terms: &'a [Term],
}

impl Posting<'_> {
    // No terms, or a term without spots.
    pub(crate) fn is_blank(&self) -> bool
        ensures { result ≡ (is_empty self.now.terms.now || any blank self.now.terms.now) }
    {
        self.terms.is_empty() || rows::has_blank(self.terms)
    }

    // A coefficient, the bound or the rule number beyond its limits.
    pub(crate) fn is_out_of_range(&self) -> bool
        ensures { result ≡ (any unfit self.now.terms.now || (nat_lt most_bound (unsigned_abs self.now.bound) || nat_le rule_numbers self.now.number)) }
    {
        rows::has_unfit(self.terms)
            || self.bound.unsigned_abs() > MOST_BOUND
            || usize::from(self.number) >= RULE_NUMBERS
    }

    // Too many terms, or too many spots.
    pub(crate) fn is_crowded(&self) -> bool
        ensures { result ≡ (nat_lt most_terms (length self.now.terms.now) || nat_lt most_named (size (named self.now.terms.now))) }
    {
        self.terms.len() > MOST_TERMS || rows::spots_named(self.terms) > MOST_NAMED
    }
}
