// The calls on a draft and on a locked sheet.
ghost use Rattle.std.specs.Prelude.{◌≡◌};
ghost use Rattle.sheet.specs.Ledger.{posting, empty_ledger, step, Declares, Posts, Prices, Withdraws, Locks, Unlocks};
ghost use Rattle.sheet.specs.Ledger.{declare_answer, post_answer, price_answer, withdraw_answer};
ghost use Rattle.sheet.specs.History.{draft_ledger, locked_ledger};

use crate::book::Book;
use crate::postings::Posting;
use crate::prices::Price;
use crate::states::{Draft, Locked};
use std::marker::PhantomData;
use terms::{Refusal, Term};

impl Draft {
    // A draft with no spots, no rules, no prices and 512 empty term places.
    pub fn new() -> Self
        ensures { draft_ledger result ≡ empty_ledger }
    {
        Draft {
            book: Book::new(),
            state: PhantomData,
        }
    }

    // One spot more; the answer is the number that it got.
    pub fn declare(&mut self, house: u32) -> Result<u32, Refusal>
        ensures after { draft_ledger self.new ≡ step (draft_ledger self.old) (Declares house) }
        ensures answer { result ≡ declare_answer (draft_ledger self.old) house }
    {
        self.book.declare(house)
    }

    // A rule more, under a number that none has. Its terms take places that were never used. The arguments stand apart, so that a
    // maker's call is one line; and the relation comes as its number, since makers screen nothing: one that no relation has is refused.
    pub fn post(
        &mut self,
        number: u8,
        relation: u8,
        bound: i32,
        terms: &[Term],
    ) -> Result<(), Refusal>
        ensures after { draft_ledger self.new ≡ step (draft_ledger self.old) (Posts (posting number relation bound terms.now)) }
        ensures answer { result ≡ post_answer (draft_ledger self.old) (posting number relation bound terms.now) }
    {
        self.book.post(&Posting {
            number,
            relation,
            bound,
            terms,
        })
    }

    // Sets the amount of a group; 0 drops the group's entry. The two stand apart, so that a maker's call is one line.
    pub fn price(&mut self, amount: i32, group: u32) -> Result<(), Refusal>
        ensures after { draft_ledger self.new ≡ step (draft_ledger self.old) (Prices amount group) }
        ensures answer { result ≡ price_answer (draft_ledger self.old) amount group }
    {
        self.book.price(Price { amount, group })
    }

    // Ends a live rule; its places are not used again.
    pub fn withdraw(&mut self, number: u8) -> Result<(), Refusal>
        ensures after { draft_ledger self.new ≡ step (draft_ledger self.old) (Withdraws number) }
        ensures answer { result ≡ withdraw_answer (draft_ledger self.old) number }
    {
        self.book.withdraw(number)
    }

    // The same sheet, locked.
    pub fn lock(self) -> Locked
        ensures { locked_ledger result ≡ step (draft_ledger self) Locks }
    {
        let Draft { book, state: _ } = self;
        Locked {
            book,
            state: PhantomData,
        }
    }
}

impl Locked {
    // The same sheet as a draft.
    pub fn unlock(self) -> Draft
        ensures { draft_ledger result ≡ step (locked_ledger self) Unlocks }
    {
        let Locked { book, state: _ } = self;
        Draft {
            book,
            state: PhantomData,
        }
    }
}
