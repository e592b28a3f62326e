// What the tests share: sheets booked from tables, and a desk, where questions are asked of a sheet and their answers checked.
use lineup::*;
use std::alloc::{AllocError, Global};
use std::process::Abort;
use std::test::Fail;

// A draft with so many spots and nothing else.
pub fn draft_with_spots<R: Abort>(rt: &R, count: u8) -> Draft {
    let mut draft = Draft::new();
    for spot in 0..count {
        let spot = u32::from(spot);
        assert_eq!(rt; draft.declare(101 + spot), Ok(spot));
    }
    draft
}

// What stands on a sheet. A rule is given by its number, its relation, its bound and its terms, these by coefficient and group; a price by
// its amount and its group.
#[derive(Clone, Copy)]
pub struct Book {
    pub spots: u8,
    pub rules: &'static [(u8, Relation, i32, &'static [(i32, u32)])],
    pub prices: &'static [(i32, u32)],
}

fn terms_from(heap: Global, pairs: &[(i32, u32)]) -> Result<Vec<Term>, AllocError> {
    pairs
        .iter()
        .map(|&(coefficient, group)| Term { coefficient, group })
        .collect(heap)
}

impl Book {
    // The sheet, on which every call is taken.
    pub fn sheet<R: Abort>(&self, rt: &R, heap: Global) -> Result<Locked, Fail> {
        let mut draft = draft_with_spots(rt, self.spots);
        for &(number, relation, bound, pairs) in self.rules {
            let terms = terms_from(heap, pairs)?;
            assert_eq!(rt;
                draft.post(number, relation.number(), bound, &terms),
                Ok(())
            );
        }
        for &(amount, group) in self.prices {
            assert_eq!(rt; draft.price(amount, group), Ok(()));
        }
        Ok(draft.lock())
    }
}

// A card with these pins.
pub fn card_with(rt: &impl Abort, pins: &[(u32, Pin)]) -> Card {
    let mut card = Card::new();
    for &(spot, pin) in pins {
        assert_eq!(rt; card.pin(spot, pin), Ok(()));
    }
    card
}

// What the places of a choice table hold before it is written to.
pub const UNWRITTEN: u8 = 99;

// A sheet, a card, a plan and a choice table, of which questions are asked by name and checked for their answers. Public where a test looks at it or
// changes it.
#[derive(Drop)]
pub struct Desk<'a, R> {
    rt: &'a R,
    heap: Global,
    pub sheet: Locked,
    pub card: Card,
    pub plan: Plan,
    pub table: Vec<u8>,
}

impl<'a, R: Abort> Desk<'a, R> {
    // A desk with a plan of no spots and a choice table of this many places.
    pub fn new(
        rt: &'a R,
        heap: Global,
        book: &Book,
        pins: &[(u32, Pin)],
        places: usize,
    ) -> Result<Self, Fail> {
        Ok(Desk {
            rt,
            heap,
            sheet: book.sheet(rt, heap)?,
            card: card_with(rt, pins),
            plan: Plan::new(),
            table: vec![in heap; UNWRITTEN; places]?,
        })
    }

    // The same, where the sheet is solved.
    pub fn solved(
        rt: &'a R,
        heap: Global,
        book: &Book,
        pins: &[(u32, Pin)],
        places: usize,
    ) -> Result<Self, Fail> {
        let mut desk = Desk::new(rt, heap, book, pins, places)?;
        desk.solve(Ok(()))?;
        Ok(desk)
    }

    // Solves, with this answer. Beyond what the plan needs the table holds what it held, and after a refusal other than that of no line-up both plan
    // and table do.
    pub fn solve(&mut self, answer: Result<(), Refusal>) -> Result<(), Fail> {
        let plan = self.plan;
        let table = self.table.clone()?;
        let got = solve(&self.sheet, &self.card, &mut self.plan, &mut self.table);
        assert_eq!(self.rt; got, answer);
        if matches!(answer, Ok(()) | Err(Refusal::NoLineUp)) {
            let need = self.plan.need();
            assert_eq!(self.rt; self.table.get(need..), table.get(need..));
        } else {
            assert_eq!(self.rt; self.plan, plan);
            assert_eq!(self.rt; self.table, table);
        }
        Ok(())
    }

    // Tries a spot, with this answer. The card is as it was. The table is as solve leaves it for the card with the spot pinned in, and as it was
    // after a refusal.
    pub fn try_spot(&mut self, spot: u32, answer: Result<bool, Refusal>) -> Result<(), Fail> {
        let card = self.card;
        let mut table = self.table.clone()?;
        let got = trial(&self.sheet, &mut self.card, spot, &mut self.table);
        assert_eq!(self.rt; got, answer, "spot {spot}");
        assert_eq!(self.rt; self.card, card, "spot {spot}");
        if answer.is_ok() {
            let mut pinned = card;
            assert_eq!(self.rt; pinned.pin(spot, Pin::In), Ok(()));
            let _ = solve(&self.sheet, &pinned, &mut Plan::new(), &mut table);
        }
        assert_eq!(self.rt; self.table, table, "spot {spot}");
        Ok(())
    }

    // Tries the spots from 0 on, of each of which this is said.
    pub fn try_spots(&mut self, fitting: &[bool]) -> Result<(), Fail> {
        for (spot, &fits) in (0..).zip(fitting) {
            self.try_spot(spot, Ok(fits))?;
        }
        Ok(())
    }

    // The plan has these link sets, and these codes stand in the table as far as it needs.
    pub fn assert_codes(&self, link_sets: &[u32], codes: &[u8]) {
        assert_eq!(self.rt; self.plan.link_sets(), link_sets);
        assert_eq!(self.rt; self.plan.need(), codes.len());
        assert_eq!(self.rt; self.table.get(..codes.len()), Some(codes));
    }

    // The table is written to as far as the plan needs, and no further.
    pub fn assert_written(&self) {
        let need = self.plan.need();
        for (place, &byte) in self.table.iter().enumerate() {
            assert_eq!(self.rt; byte == UNWRITTEN, place >= need, "place {place}");
        }
    }

    // These line-ups are listed, in this order, and each is that of itself as switches.
    pub fn assert_lists(&self, line_ups: &[u32]) {
        let mut after = None;
        for line_up in line_ups {
            let next = next(&self.plan, &self.table, after);
            assert_eq!(self.rt; next, Ok(Some(*line_up)), "after {after:?}");
            after = Some(*line_up);
            self.assert_instance(*line_up, Ok(*line_up));
        }
        self.assert_next(after, Ok(None));
    }

    // The line-up of these switches.
    pub fn assert_instance(&self, switches: u32, answer: Result<u32, Refusal>) {
        let line_up = instance(&self.plan, &self.table, switches);
        assert_eq!(self.rt; line_up, answer, "of {switches}");
    }

    // What follows.
    pub fn assert_next(&self, after: Option<u32>, answer: Result<Option<u32>, Refusal>) {
        let next = next(&self.plan, &self.table, after);
        assert_eq!(self.rt; next, answer, "after {after:?}");
    }
}
