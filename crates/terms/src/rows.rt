// What makes a list of terms unfit for a rule: one test for each reason, over a list of any length.
ghost use Rattle.std.specs.Prelude.{◌≡◌, map, ◌==◌};
ghost use Rattle.terms.specs.Tests.{any, repeats};
ghost use Rattle.terms.specs.Groups.{beyond, size};
ghost use Rattle.terms.specs.Terms.{group_of, named, blank, unfit};

use crate::groups::is_beyond;
use crate::limits::MOST_COEFFICIENT;
use crate::polynomials::Term;

// Some term names a spot whose number is `spots` or more.
pub fn names_beyond(terms: &[Term], spots: usize) -> bool
    ensures { result ≡ any (λ t. beyond spots t.group) terms.now }
{
    terms.iter().any(|term| is_beyond(term.group, spots))
}

// Some term names no spot.
pub fn has_blank(terms: &[Term]) -> bool
    ensures { result ≡ any blank terms.now }
{
    terms.iter().any(|term| term.group == 0)
}

// The coefficient is 0 or too large.
fn is_unfit(term: Term) -> bool
    ensures { result ≡ unfit term }
{
    let size = term.coefficient.unsigned_abs();
    size == 0 || size > MOST_COEFFICIENT
}

// Some coefficient is 0 or too large.
pub fn has_unfit(terms: &[Term]) -> bool
    ensures { result ≡ any unfit terms.now }
{
    terms.iter().any(|term| is_unfit(*term))
}

// Some term has this group. All terms are looked at, found or not: most lists have no group twice, and a loop with one way out is done several
// terms at a time.
fn has_group(terms: &[Term], group: u32) -> bool
    ensures { result ≡ any (λ t. group == t.group) terms.now }
{
    terms
        .iter()
        .fold(false, |found, term| found | (group == term.group))
}

// Two terms have the same group. Each term is compared with those behind it, which a walk down the list has at hand; a chain would need an
// index to reach them.
pub fn group_repeats(terms: &[Term]) -> bool
    ensures { result ≡ repeats (map group_of terms.now) }
{
    let mut rest = terms;
    while let Some((first, others)) = rest.split_first() {
        if has_group(others, first.group) {
            return true;
        }
        rest = others;
    }
    false
}

// The group of the spots that some term names.
pub fn spots_of(terms: &[Term]) -> u32
    ensures { result ≡ named terms.now }
{
    terms.iter().fold(0, |group, term| group | term.group)
}

// How many spots the terms name in all.
pub fn spots_named(terms: &[Term]) -> u32
    ensures { result ≡ size (named terms.now) }
{
    spots_of(terms).count_ones()
}
