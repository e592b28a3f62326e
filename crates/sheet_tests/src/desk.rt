// What the tests share: calls in short, all that a sheet holds, and a desk, where calls are made and their answers checked.
use lineup::*;
use std::alloc::{AllocError, Global};
use std::fmt::{Debug, Display};
use std::mem::replace;
use std::process::Abort;
use std::test::Fail;

pub fn declare(house: u32) -> Booking<'static> {
    Booking::Declare { house }
}

// The relation is the byte that a maker gives.
pub fn post<'a>(number: u8, relation: u8, bound: i32, terms: &'a [Term]) -> Booking<'a> {
    Booking::Post {
        number,
        relation,
        bound,
        terms,
    }
}

pub fn price(amount: i32, group: u32) -> Booking<'static> {
    Booking::Price { amount, group }
}

pub fn withdraw(number: u8) -> Booking<'static> {
    Booking::Withdraw { number }
}

// Two terms over the spots 0 and 1, written out since a static calls no function.
pub static PAIR: [Term; 2] = [
    Term {
        coefficient: 30,
        group: 1,
    },
    Term {
        coefficient: -20,
        group: 3,
    },
];

fn term(coefficient: i32, group: u32) -> Term {
    Term { coefficient, group }
}

// The terms with these coefficients and groups.
pub fn terms_from(heap: Global, pairs: &[(i32, u32)]) -> Result<Vec<Term>, AllocError> {
    pairs
        .iter()
        .map(|&(coefficient, group)| term(coefficient, group))
        .collect(heap)
}

// This many terms, whose groups are the numbers from 1 on.
pub fn terms_of(heap: Global, count: u32) -> Result<Vec<Term>, AllocError> {
    (1..=count).map(|group| term(1, group)).collect(heap)
}

#[derive(PartialEq, Debug, Drop)]
pub struct HeldRule {
    pub number: u8,
    pub relation: Relation,
    pub bound: i32,
    pub terms: Vec<Term>,
}

impl HeldRule {
    pub fn new(number: u8, relation: Relation, bound: i32, terms: Vec<Term>) -> Self {
        HeldRule {
            number,
            relation,
            bound,
            terms,
        }
    }

    fn of(heap: Global, number: u8, rule: Rule<'_>) -> Result<Self, AllocError> {
        let terms = rule.terms.to_vec(heap)?;
        Ok(HeldRule::new(number, rule.relation, rule.bound, terms))
    }
}

// All that a sheet holds.
#[derive(PartialEq, Debug, Drop)]
pub struct Held {
    pub houses: Vec<u32>,
    pub rules: Vec<HeldRule>,
    pub prices: Vec<Price>,
    pub unused_places: usize,
}

impl Held {
    pub fn of(heap: Global, locked: &Locked) -> Result<Self, AllocError> {
        let rules = (0..=u8::MAX).filter_map(|number| Some(HeldRule::of(
            heap,
            number,
            locked.rule(number)?,
        )));
        Ok(Held {
            houses: locked.houses().to_vec(heap)?,
            rules: rules.try_collect(heap)?,
            prices: locked.prices().to_vec(heap)?,
            unused_places: locked.unused_places(),
        })
    }
}

// The answers are those told, as far as these go, and what stood there before beyond them.
pub fn assert_noted<A: Copy + PartialEq + Debug>(
    rt: &impl Abort,
    answers: &[A],
    told: &[A],
    before: A,
) {
    for (i, answer) in answers.iter().enumerate() {
        assert_eq!(rt;
            *answer,
            told.get(i).copied().unwrap_or(before),
            "answer {i}"
        );
    }
}

// A rule's number, relation, bound and terms, and the answer to its posting. The relation is the byte that a maker gives, and may
// be no relation's; a term is given by its coefficient and its group.
pub type PostCase = (u8, u8, i32, &'static [(i32, u32)], Answer);

// A draft, on which calls are made by name and checked for their answers. The heap stands beside the handle, since a handle that may stop a test has
// none.
#[derive(Drop)]
pub struct Desk<'a, R> {
    rt: &'a R,
    heap: Global,
    pub draft: Draft,
}

impl<'a, R: Abort> Desk<'a, R> {
    pub fn new(rt: &'a R, heap: Global, draft: Draft) -> Self {
        Desk { rt, heap, draft }
    }

    // A desk whose draft has this many spots.
    pub fn with_spots(rt: &'a R, heap: Global, spots: u8) -> Self {
        let mut draft = Draft::new();
        for spot in 0..spots {
            let spot = u32::from(spot);
            assert_eq!(rt; draft.declare(1000 + spot), Ok(spot));
        }
        Desk::new(rt, heap, draft)
    }

    // A desk whose draft has seven spots, and all of whose places are used by the eight rules from 0 on.
    pub fn without_places(rt: &'a R, heap: Global) -> Result<Self, Fail> {
        let mut desk = Desk::with_spots(rt, heap, 7);
        let terms = terms_of(heap, 64)?;
        for number in 0..8 {
            assert_eq!(rt;
                desk.draft
                    .post(number, Relation::AtMost.number(), 40, &terms),
                Ok(())
            );
        }
        assert_eq!(rt; desk.draft.unused_places(), 0);
        Ok(desk)
    }

    // All that the draft holds: it is locked, looked at and unlocked again.
    pub fn look(&mut self) -> Result<Held, AllocError> {
        let locked = replace(&mut self.draft, Draft::new()).lock();
        let held = Held::of(self.heap, &locked)?;
        self.draft = locked.unlock();
        Ok(held)
    }

    // The draft holds these rules, and this many places are unused.
    pub fn assert_holds(&mut self, rules: &[HeldRule], unused_places: usize) -> Result<(), Fail> {
        let held = self.look()?;
        assert_eq!(self.rt; held.rules.as_slice(), rules);
        assert_eq!(self.rt; held.unused_places, unused_places);
        Ok(())
    }

    // The price list as amounts and groups.
    pub fn prices(&mut self) -> Result<Vec<(i32, u32)>, AllocError> {
        let held = self.look()?;
        held.prices
            .iter()
            .map(|price| (price.amount, price.group))
            .collect(self.heap)
    }

    // Makes a call. A draft stays one.
    fn call(&mut self, booking: Booking<'_>) -> Answer {
        let draft = &mut self.draft;
        match booking {
            Booking::Declare { house } => draft.declare(house).into(),
            Booking::Post {
                number,
                relation,
                bound,
                terms,
            } => draft.post(number, relation, bound, terms).into(),
            Booking::Price { amount, group } => draft.price(amount, group).into(),
            Booking::Withdraw { number } => draft.withdraw(number).into(),
            Booking::Lock | Booking::Unlock => Answer::PassedOver,
        }
    }

    // Makes a call, which gives this answer. Where it is refused, the sheet holds what it held.
    pub fn tell(&mut self, booking: Booking<'_>, answer: Answer) -> Result<(), Fail> {
        self.tell_noted(booking, answer, "one call")
    }

    // The same, where a failure says which call it was.
    fn tell_noted<N: Display + Drop>(
        &mut self,
        booking: Booking<'_>,
        answer: Answer,
        note: N,
    ) -> Result<(), Fail> {
        let before = self.look()?;
        assert_eq!(self.rt; self.call(booking), answer, "{note}");
        if let Answer::Refused(_) = answer {
            assert_eq!(self.rt; self.look()?, before, "{note}");
        }
        Ok(())
    }

    // Makes calls in order, each with its answer.
    pub fn story(&mut self, calls: &[(Booking<'_>, Answer)]) -> Result<(), Fail> {
        for (i, &(booking, answer)) in calls.iter().enumerate() {
            self.tell_noted(booking, answer, format_args!("call {i}"))?;
        }
        Ok(())
    }

    // Posts rules in order, each with its answer.
    pub fn post_all(&mut self, postings: &[PostCase]) -> Result<(), Fail> {
        for (i, &(number, relation, bound, pairs, answer)) in postings.iter().enumerate() {
            let terms = terms_from(self.heap, pairs)?;
            let booking = post(number, relation, bound, &terms);
            self.tell_noted(booking, answer, format_args!("posting {i}"))?;
        }
        Ok(())
    }

    // Posts an at-most rule of this many terms, whose groups are the numbers from 1 on.
    pub fn post_terms(&mut self, number: u8, count: u32, answer: Answer) -> Result<(), Fail> {
        let terms = terms_of(self.heap, count)?;
        let booking = post(number, Relation::AtMost.number(), 40, &terms);
        self.tell_noted(booking, answer, format_args!("{count} terms"))
    }

    // Locks and unlocks the draft, which holds what the locked sheet held.
    pub fn relock(self) -> Result<Self, Fail> {
        let Desk { rt, heap, draft } = self;
        let locked = draft.lock();
        let held = Held::of(heap, &locked)?;
        let mut desk = Desk::new(rt, heap, locked.unlock());
        assert_eq!(rt; desk.look()?, held);
        Ok(desk)
    }

    pub fn lock(self) -> Locked {
        let Desk { draft, .. } = self;
        draft.lock()
    }
}
