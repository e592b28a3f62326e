// The data of a sheet, in either state. Each part fills what it has room for from the front.
ghost use Rattle.std.specs.Prelude.{◌≡◌, ◌≤◌, length};
ghost use Rattle.sheet.specs.Limits.{place_count, rule_numbers};
ghost use Rattle.sheet.specs.Layout.{FirstUsed, Within};

use crate::limits::{MOST_PRICES, MOST_SPOTS, PLACE_COUNT, RULE_NUMBERS};
use crate::prices::Price;
use arrayvec::ArrayVec;
use std::marker::Model;
use terms::{Relation, Term};

// The term places: the first ones are used, the others empty. It has no `Model`: contracts speak of the terms, of how many places are used, and of
// which, so a model would be the fields again.
#[derive(Drop)]
pub struct Places {
    pub(crate) table: [Term; PLACE_COUNT],
    pub(crate) used: usize,
    ghost size: { length table ≡ place_count },
    ghost few: { used ≤ place_count },
    ghost filled: { FirstUsed table used },
}

// The prices in list order, no group twice.
#[derive(Drop)]
pub struct PriceList {
    pub(crate) entries: ArrayVec<Price, MOST_PRICES>,
}

impl Model for PriceList {
    ghost use Rattle.std.specs.Prelude.{◌≡◌, false, List, map};
    ghost use Rattle.terms.specs.Tests.{repeats};
    ghost use Rattle.sheet.specs.declared.prices.Price.{Price};
    ghost use Rattle.sheet.specs.Layout.{price_group};

    ghost Value = { List Price };

    ghost view = { λ l. l.entries.items };

    ghost invariant = { λ l. repeats (map price_group l.entries.items) ≡ false };
}

// Neighbouring places.
#[derive(Clone, Copy)]
pub struct Run {
    pub(crate) start: usize,
    pub(crate) count: usize,
}

// A live rule, its terms lying in a run of places. They lie there and not in a vector of the rule's own, since a sheet allocates nothing.
#[derive(Clone, Copy)]
pub struct Placed {
    pub(crate) relation: Relation,
    pub(crate) bound: i32,
    pub(crate) run: Run,
}

// The house numbers stand in the order of declaration. A rule stands at its number, and its terms lie in used places.
#[derive(Drop)]
pub struct Book {
    pub(crate) spots: ArrayVec<u32, MOST_SPOTS>,
    pub(crate) places: Places,
    pub(crate) rules: [Option<Placed>; RULE_NUMBERS],
    pub(crate) prices: PriceList,
    ghost size: { length rules ≡ rule_numbers },
    ghost within: { Within rules places.used },
}
