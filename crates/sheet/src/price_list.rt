// The list of prices of a book.
ghost use Rattle.std.specs.Prelude.{◌≡◌, true, ◌||◌, [], length, position, nat_le, nat_lt};
ghost use Rattle.terms.specs.Tests.{any};
ghost use Rattle.sheet.specs.Limits.{most_prices};
ghost use Rattle.sheet.specs.Ledger.{is_for, is_zero, with_amount};

use crate::book::PriceList;
use crate::prices::Price;
use arrayvec::ArrayVec;

impl PriceList {
    pub(crate) fn new() -> Self
        ensures { result ≡ [] }
    {
        PriceList {
            entries: ArrayVec::new(),
        }
    }

    pub(crate) fn is_full(&self) -> bool
        ensures { result ≡ nat_le most_prices (length self.now) }
    {
        self.entries.is_full()
    }

    // Where the group's entry stands.
    fn find(&self, group: u32) -> Option<usize>
        ensures { result ≡ position (is_for group) self.now }
    {
        self.entries.iter().position(|price| price.group == group)
    }

    // The group has an entry.
    pub(crate) fn has(&self, group: u32) -> bool
        ensures { result ≡ any (is_for group) self.now }
    {
        self.find(group).is_some()
    }

    // Sets the amount of a group: 0 drops its entry.
    pub(crate) fn set(&mut self, price: Price)
        requires { (nat_lt (length self.old) most_prices || (any (is_for price.group) self.old || is_zero price.amount)) ≡ true }
        ensures { self.new ≡ with_amount self.old price.amount price.group }
    {
        match self.find(price.group) {
            Some(at) if price.amount == 0 => {
                self.entries.remove(at);
            }
            Some(at) => self.entries[at] = price,
            None if price.amount == 0 => {}
            None => self.entries.push(price),
        }
    }

    pub(crate) fn prices(&self) -> &[Price]
        ensures { result.now ≡ self.now }
    {
        self.entries.as_slice()
    }
}
