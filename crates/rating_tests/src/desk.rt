// What the tests share: sheets booked from tables, and a desk, where lawful line-ups are rated and the answers checked.
use lineup::*;
use std::alloc::{AllocError, Global};
use std::fmt::Debug;
use std::process::Abort;
use std::test::Fail;

// What stands on a sheet. A rule is given by its number, its relation, its bound and its terms, these by coefficient and group; a price by
// its amount and its group.
#[derive(Clone, Copy)]
pub struct Book {
    pub spots: u8,
    pub rules: &'static [(u8, Relation, i32, &'static [(i32, u32)])],
    pub prices: &'static [(i32, u32)],
}

fn terms_from(heap: Global, pairs: &[(i32, u32)]) -> Result<Vec<Term>, AllocError> {
    pairs
        .iter()
        .map(|&(coefficient, group)| Term { coefficient, group })
        .collect(heap)
}

impl Book {
    // The sheet, on which every call is taken.
    pub fn sheet<R: Abort>(&self, rt: &R, heap: Global) -> Result<Locked, Fail> {
        let mut draft = Draft::new();
        for spot in 0..self.spots {
            let spot = u32::from(spot);
            assert_eq!(rt; draft.declare(101 + spot), Ok(spot));
        }
        for &(number, relation, bound, pairs) in self.rules {
            let terms = terms_from(heap, pairs)?;
            assert_eq!(rt;
                draft.post(number, relation.number(), bound, &terms),
                Ok(())
            );
        }
        for &(amount, group) in self.prices {
            assert_eq!(rt; draft.price(amount, group), Ok(()));
        }
        Ok(draft.lock())
    }
}

// A card with these pins.
pub fn card_with(rt: &impl Abort, pins: &[(u32, Pin)]) -> Card {
    let mut card = Card::new();
    for &(spot, pin) in pins {
        assert_eq!(rt; card.pin(spot, pin), Ok(()));
    }
    card
}

// What the places of the two tables hold before they are written to.
pub const UNWRITTEN: u8 = 99;

// A sheet, a card, a choice table and a figure table, by which lawful line-ups are rated.
#[derive(Drop)]
pub struct Desk<'a, R, F> {
    rt: &'a R,
    pub sheet: Locked,
    pub card: Card,
    pub choices: Vec<u8>,
    pub figures: Vec<F>,
}

impl<'a, R: Abort, F: Copy + PartialEq + Debug + From<u8>> Desk<'a, R, F> {
    // A desk with tables of these many places.
    pub fn new(
        rt: &'a R,
        heap: Global,
        book: &Book,
        pins: &[(u32, Pin)],
        places: (usize, usize),
    ) -> Result<Self, Fail> {
        Ok(Desk {
            rt,
            sheet: book.sheet(rt, heap)?,
            card: card_with(rt, pins),
            choices: vec![in heap; UNWRITTEN; places.0]?,
            figures: vec![in heap; F::from(UNWRITTEN); places.1]?,
        })
    }

    // Both tables are left as the answer says, where they were so before. The choices are those of solve, unless a row above that of no line-up fits.
    // Figures are written where the answer is no refusal, and then as far as the sheet needs.
    fn assert_left(&self, choices: Vec<u8>, figures: Vec<F>, refusal: Option<Refusal>) {
        let mut choices = choices;
        let mut plan = Plan::new();
        if matches!(refusal, None | Some(Refusal::NoLineUp)) {
            let solved = solve(&self.sheet, &self.card, &mut plan, &mut choices);
            assert_eq!(self.rt; solved.err(), refusal);
        }
        assert_eq!(self.rt; self.choices, choices);
        let written = if refusal.is_none() { plan.need() } else { 0 };
        assert_eq!(self.rt; self.figures.get(written..), figures.get(written..));
    }

    // Rates, with this answer.
    pub fn rate<G: Rating<Figure = F>>(
        &mut self,
        rating: &G,
        answer: Result<F, Refusal>,
    ) -> Result<(), Fail> {
        let choices = self.choices.clone()?;
        let figures = self.figures.clone()?;
        let got = rate(
            &self.sheet,
            &self.card,
            rating,
            &mut self.choices,
            &mut self.figures,
        );
        assert_eq!(self.rt; got, answer);
        self.assert_left(choices, figures, answer.err());
        Ok(())
    }

    // Asks for a best line-up, with this answer: a figure and the line-up. Rating alone gives the same figure, and leaves the same tables.
    pub fn best<G: Ranked<Figure = F>>(
        &mut self,
        rating: &G,
        answer: Result<(F, u32), Refusal>,
    ) -> Result<(), Fail> {
        let choices = self.choices.clone()?;
        let figures = self.figures.clone()?;
        let got = best(
            &self.sheet,
            &self.card,
            rating,
            &mut self.choices,
            &mut self.figures,
        );
        assert_eq!(self.rt; got, answer);
        self.assert_left(choices, figures, answer.err());
        let left = self.figures.clone()?;
        self.rate(rating, answer.map(|(figure, _)| figure))?;
        assert_eq!(self.rt; self.figures, left);
        Ok(())
    }

    // These figures stand in the figure table, and behind them nothing is written.
    pub fn assert_figures(&self, figures: &[F]) {
        assert_eq!(self.rt; self.figures.get(..figures.len()), Some(figures));
        for figure in self.figures.iter().skip(figures.len()) {
            assert_eq!(self.rt; *figure, F::from(UNWRITTEN));
        }
    }
}

impl<'a, R: Abort> Desk<'a, R, u64> {
    // Asks for the takings, with this answer.
    pub fn takings(&mut self, answer: Result<i64, Refusal>) -> Result<(), Fail> {
        let choices = self.choices.clone()?;
        let figures = self.figures.clone()?;
        let got = takings(
            &self.sheet,
            &self.card,
            &mut self.choices,
            &mut self.figures,
        );
        assert_eq!(self.rt; got, answer);
        self.assert_left(choices, figures, answer.err());
        Ok(())
    }
}
