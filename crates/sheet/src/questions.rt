// What a sheet holds, and what every sheet keeps.
ghost use Rattle.std.specs.Prelude.{◌≡◌, ◌≤◌, length};
ghost use Rattle.std.specs.Option.{option_map};
ghost use Rattle.sheet.specs.Limits.{place_count};
ghost use Rattle.sheet.specs.Ledger.{Told, live_terms, unused};
ghost use Rattle.sheet.specs.Kept.{Kept};
ghost use Rattle.sheet.specs.RuleTables.{RulesHaveTables};
ghost use Rattle.sheet.specs.Of.{book_ledger};
ghost use Rattle.sheet.specs.History.{ledger_in, draft_ledger, locked_ledger, rule_seen};

use crate::book::Book;
use crate::prices::Price;
use crate::states::{Draft, Locked, SheetIn, SheetState};
use terms::{Relation, Term};

// A live rule as it stands in a sheet: the sum of the terms stands in the relation to the bound.
#[derive(Clone, Copy, PartialEq, Eq, Debug)]
pub struct Rule<'a> {
    pub relation: Relation,
    pub bound: i32,
    pub terms: &'a [Term],
}

impl Book {
    // The rule that is live under a number. Nothing else reads terms out of their places.
    pub(crate) fn rule(&self, number: u8) -> Option<Rule<'_>>
        ensures { option_map rule_seen result ≡ (book_ledger self.now).contents.rules number }
    {
        let placed = self.placed(number)?;
        Some(Rule {
            relation: placed.relation,
            bound: placed.bound,
            terms: self.places.read(placed.run),
        })
    }

    pub(crate) fn unused_places(&self) -> usize
        ensures { result ≡ unused (book_ledger self.now).places }
    {
        self.places.unused()
    }
}

impl<S: SheetState> SheetIn<S> {
    // What every sheet keeps, so that no more terms are live than there are places, and that some history leads to it. The call does nothing: its
    // contract is the statement.
    pub fn keeps(&self)
        ensures kept { Kept (ledger_in self.now) }
        ensures few_terms { live_terms (ledger_in self.now).contents ≤ place_count }
        ensures told { Told (ledger_in self.now) }
    {}

    // Each rule of a sheet is in the normal form that `to_values` and `to_terms` speak of. The call does nothing: its contract is the statement.
    pub fn rules_have_tables(&self)
        ensures { RulesHaveTables (ledger_in self.now).contents }
    {}

    // How many terms may still be posted, once the sheet is a draft.
    pub fn unused_places(&self) -> usize
        ensures { result ≡ unused (ledger_in self.now).places }
    {
        self.book.unused_places()
    }
}

impl Locked {
    // The house numbers of the spots, in the order of declaration.
    pub fn houses(&self) -> &[u32]
        ensures { result.now ≡ (locked_ledger self.now).contents.houses }
    {
        self.book.spots.as_slice()
    }

    // The rule that is live under a number.
    pub fn rule(&self, number: u8) -> Option<Rule<'_>>
        ensures { option_map rule_seen result ≡ (locked_ledger self.now).contents.rules number }
    {
        self.book.rule(number)
    }

    // The prices in list order.
    pub fn prices(&self) -> &[Price]
        ensures { result.now ≡ (locked_ledger self.now).contents.prices }
    {
        self.book.prices.prices()
    }
}

// How many spots a draft has. Inner: a price that is read from a file is judged by it.
pub fn spot_count(draft: &Draft) -> usize
    ensures { result ≡ length (draft_ledger draft.now).contents.houses }
{
    draft.book.spots.len()
}

// The prices of a draft in list order. Inner, as `spot_count`.
pub fn prices_of(draft: &Draft) -> &[Price]
    ensures { result.now ≡ (draft_ledger draft.now).contents.prices }
{
    draft.book.prices.prices()
}
