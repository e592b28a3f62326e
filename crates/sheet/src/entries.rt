// What the calls make of a book, and which refusal they meet.
ghost use Rattle.std.specs.Prelude.{◌≡◌, ◌<◌, ◌≤◌, false, ◌||◌, map, Some, None, IfOk, length, nat_lt, slice_index_or};
ghost use Rattle.std.specs.Result.{result_err};
ghost use Rattle.terms.specs.Relations.{relation_of};
ghost use Rattle.terms.specs.Refusals.{answered};
ghost use Rattle.terms.specs.Tests.{any, repeats};
ghost use Rattle.terms.specs.Terms.{group_of, blank};
ghost use Rattle.sheet.specs.Limits.{rule_numbers};
ghost use Rattle.sheet.specs.Ledger.{empty_ledger, live, unused, refusal, made, posted, Declares, Posts, Prices, Withdraws, declare_answer, post_answer, price_answer, withdraw_answer};
ghost use Rattle.sheet.specs.Of.{book_ledger, posting_of};

use crate::book::{Book, Placed, Places, PriceList};
use crate::limits::{MOST_AMOUNT, RULE_NUMBERS};
use crate::postings::Posting;
use crate::prices::Price;
use arrayvec::ArrayVec;
use terms::limits::MOST_NAMED;
use terms::{Refusal, Relation, groups, rows};

impl Book {
    pub(crate) fn new() -> Self
        ensures { book_ledger result ≡ empty_ledger }
    {
        Book {
            spots: ArrayVec::new(),
            places: Places::new(),
            rules: [None; RULE_NUMBERS],
            prices: PriceList::new(),
        }
    }

    fn check_declare(&self, house: u32) -> Result<(), Refusal>
        ensures { result ≡ answered (refusal (book_ledger self.now) (Declares house)) tt }
    {
        if self.spots.is_full() {
            return Err(Refusal::Full);
        }
        if self.spots.as_slice().contains(&house) {
            return Err(Refusal::Twice);
        }
        Ok(())
    }

    pub(crate) fn declare(&mut self, house: u32) -> Result<u32, Refusal>
        ensures after { book_ledger self.new ≡ made (book_ledger self.old) (Declares house) }
        ensures answer { result ≡ declare_answer (book_ledger self.old) house }
    {
        self.check_declare(house)?;
        let spot = self.spots.len();
        self.spots.push(house);
        Ok(spot as u32)
    }

    // The entry under a number, where there is one.
    pub(crate) fn placed(&self, number: u8) -> Option<Placed>
        ensures { result ≡ slice_index_or self.now.rules number None }
    {
        *self.rules.get(usize::from(number))?
    }

    // A rule is live under this number.
    fn is_live(&self, number: u8) -> bool
        ensures { result ≡ live (book_ledger self.now) number }
    {
        self.placed(number).is_some()
    }

    // More terms than unused places.
    fn lacks_places(&self, posting: &Posting<'_>) -> bool
        ensures { result ≡ nat_lt (unused (book_ledger self.now).places) (length posting.now.terms.now) }
    {
        posting.terms.len() > self.unused_places()
    }

    // A live number, or a group twice.
    fn is_twice(&self, posting: &Posting<'_>) -> bool
        ensures { result ≡ (live (book_ledger self.now) posting.now.number || repeats (map group_of posting.now.terms.now)) }
    {
        self.is_live(posting.number) || rows::group_repeats(posting.terms)
    }

    // The relation of a posting that no row of refusal fits.
    fn check_post(&self, posting: &Posting<'_>) -> Result<Relation, Refusal>
        ensures refusal { result_err result ≡ refusal (book_ledger self.now) (Posts (posting_of posting.now)) }
        ensures relation { IfOk result (λ relation. relation_of posting.now.relation ≡ Some relation) }
    {
        if rows::names_beyond(posting.terms, self.spots.len()) {
            return Err(Refusal::OffSheet);
        }
        if self.lacks_places(posting) {
            return Err(Refusal::Full);
        }
        if self.is_twice(posting) {
            return Err(Refusal::Twice);
        }
        if posting.is_blank() {
            return Err(Refusal::Blank);
        }
        if posting.is_out_of_range() {
            return Err(Refusal::OutOfRange);
        }
        let relation = Relation::try_from(posting.relation)?;
        if posting.is_crowded() {
            return Err(Refusal::Crowded);
        }
        Ok(relation)
    }

    // Writes a rule that no row of refusal fits.
    fn enter(&mut self, relation: Relation, posting: &Posting<'_>)
        requires number { posting.now.number < rule_numbers }
        requires relation { relation_of posting.now.relation ≡ Some relation }
        requires room { length posting.now.terms.now ≤ unused (book_ledger self.old).places }
        requires named { any blank posting.now.terms.now ≡ false }
        ensures { book_ledger self.new ≡ posted (book_ledger self.old) (posting_of posting.now) }
    {
        let run = self.places.append(posting.terms);
        self.rules[usize::from(posting.number)] = Some(Placed {
            relation,
            bound: posting.bound,
            run,
        });
    }

    pub(crate) fn post(&mut self, posting: &Posting<'_>) -> Result<(), Refusal>
        ensures after { book_ledger self.new ≡ made (book_ledger self.old) (Posts (posting_of posting.now)) }
        ensures answer { result ≡ post_answer (book_ledger self.old) (posting_of posting.now) }
    {
        let relation = self.check_post(posting)?;
        self.enter(relation, posting);
        Ok(())
    }

    fn check_price(&self, price: Price) -> Result<(), Refusal>
        ensures { result ≡ answered (refusal (book_ledger self.now) (Prices price.amount price.group)) tt }
    {
        if groups::is_beyond(price.group, self.spots.len()) {
            return Err(Refusal::OffSheet);
        }
        if self.prices.is_full() && !self.prices.has(price.group) && price.amount != 0 {
            return Err(Refusal::Full);
        }
        if price.group == 0 {
            return Err(Refusal::Blank);
        }
        if price.amount.unsigned_abs() > MOST_AMOUNT {
            return Err(Refusal::OutOfRange);
        }
        if price.group.count_ones() > MOST_NAMED {
            return Err(Refusal::Crowded);
        }
        Ok(())
    }

    pub(crate) fn price(&mut self, price: Price) -> Result<(), Refusal>
        ensures after { book_ledger self.new ≡ made (book_ledger self.old) (Prices price.amount price.group) }
        ensures answer { result ≡ price_answer (book_ledger self.old) price.amount price.group }
    {
        self.check_price(price)?;
        self.prices.set(price);
        Ok(())
    }

    fn check_withdraw(&self, number: u8) -> Result<(), Refusal>
        ensures { result ≡ answered (refusal (book_ledger self.now) (Withdraws number)) tt }
    {
        if usize::from(number) >= RULE_NUMBERS {
            return Err(Refusal::OutOfRange);
        }
        if !self.is_live(number) {
            return Err(Refusal::NotLive);
        }
        Ok(())
    }

    pub(crate) fn withdraw(&mut self, number: u8) -> Result<(), Refusal>
        ensures after { book_ledger self.new ≡ made (book_ledger self.old) (Withdraws number) }
        ensures answer { result ≡ withdraw_answer (book_ledger self.old) number }
    {
        self.check_withdraw(number)?;
        self.rules[usize::from(number)] = None;
        Ok(())
    }
}
