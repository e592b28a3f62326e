// The term places of a book.
ghost use Rattle.std.specs.Prelude.{◌≡◌, ◌+◌, ◌≤◌, false, length, take};
ghost use Rattle.std.specs.List.{between};
ghost use Rattle.terms.specs.Tests.{any};
ghost use Rattle.terms.specs.Terms.{blank};
ghost use Rattle.sheet.specs.Ledger.{new_places, unused, next_unused, taken};
ghost use Rattle.sheet.specs.Of.{places_of};

use crate::book::{Places, Run};
use crate::limits::PLACE_COUNT;
use terms::Term;

// An empty place: a term of a rule names at least one spot.
const EMPTY: Term = Term {
    coefficient: 0,
    group: 0,
};

impl Places {
    pub(crate) fn new() -> Self
        ensures used { result.used ≡ 0 }
        ensures places { places_of result ≡ new_places }
    {
        // A plain array that starts as 512 empty terms is a required form (docs/DECISIONS.md).
        Places {
            table: [EMPTY; 512],
            used: 0,
        }
    }

    pub(crate) fn unused(&self) -> usize
        ensures { result ≡ unused (places_of self.now) }
    {
        PLACE_COUNT - self.used
    }

    // Puts the terms into the next unused places, and says which these are.
    pub(crate) fn append(&mut self, terms: &[Term]) -> Run
        requires room { length terms.now ≤ unused (places_of self.old) }
        requires named { any blank terms.now ≡ false }
        ensures start { result.start ≡ next_unused (places_of self.old) }
        ensures from { result.start ≡ self.old.used }
        ensures count { result.count ≡ length terms.now }
        ensures used { self.new.used ≡ self.old.used + length terms.now }
        ensures places { places_of self.new ≡ taken (length terms.now) (places_of self.old) }
        ensures written { between result.start (result.start + result.count) self.new.table ≡ terms.now }
        ensures kept { take self.old.used self.new.table ≡ take self.old.used self.old.table }
    {
        let start = self.used;
        let count = terms.len();
        let end = start + count;
        self.table[start..end].copy_from_slice(terms);
        self.used = end;
        Run { start, count }
    }

    // The terms in a run of used places.
    pub(crate) fn read(&self, run: Run) -> &[Term]
        requires { run.start + run.count ≤ self.now.used }
        ensures { result.now ≡ between run.start (run.start + run.count) self.now.table }
    {
        &self.table[run.start..run.start + run.count]
    }
}
