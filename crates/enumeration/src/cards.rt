// The answers about a sheet with every card of its spots, compared with plain enumeration.
use crate::lawful::{Lawful, spot_count};
use crate::links::link_sets;
use crate::tallies::Tally;
use lineup::{Card, Locked, Pin, Plan, Refusal, instance, next, solve, trial};
use std::alloc::{AllocError, Global};
use std::fmt;

// Places of a table, enough for a sheet of six spots.
pub const PLACES: usize = 63;

// What the places of a table hold before it is written to.
const UNWRITTEN: u8 = 99;

// What trial says of a spot, and the table that it leaves.
type Tried = (Result<bool, Refusal>, [u8; PLACES]);

// A sheet and a card, with the line-ups that are lawful by the sheet alone.
#[derive(Clone, Copy)]
struct Question<'a> {
    sheet: &'a Locked,
    lawful_by_sheet: &'a Lawful,
    card: Card,
}

impl Question<'_> {
    // A lawful line-up has the spot in, whatever the card says of this spot.
    fn fits(&self, heap: Global, spot: u32) -> Result<bool, AllocError> {
        let mut card = self.card;
        let _ = card.unpin(spot);
        let lawful = self.lawful_by_sheet.with_card(heap, &card)?;
        Ok(lawful.can_run(spot))
    }

    // The table as `solve` leaves it for the card with the spot pinned in.
    fn pinned_in(&self, spot: u32) -> [u8; PLACES] {
        let mut card = self.card;
        let mut table = [UNWRITTEN; PLACES];
        let _ = card.pin(spot, Pin::In);
        let _ = solve(self.sheet, &card, &mut Plan::new(), &mut table);
        table
    }

    // What trial should say of a spot, and the table that it should leave: after a refusal as it was.
    fn tried(&self, heap: Global, spot: u32) -> Result<Tried, AllocError> {
        if spot >= self.lawful_by_sheet.spots() {
            return Ok((Err(Refusal::OffSheet), [UNWRITTEN; PLACES]));
        }
        Ok((Ok(self.fits(heap, spot)?), self.pinned_in(spot)))
    }
}

// How the answers about a sheet went.
#[derive(Default, Drop)]
pub struct Comparison {
    link_sets: Tally,
    // Of each card whether a line-up is lawful, and of how many none is.
    verdicts: Tally,
    without_line_up: u32,
    // The line-up of each group of spots as switches.
    instances: Tally,
    // What comes first, and what follows each group of spots: none may follow one that is not lawful.
    steps: Tally,
    // What is said of each spot, and of one that the sheet does not have, with the table that is left.
    trials: Tally,
}

impl Comparison {
    fn add_link_sets(&mut self, heap: Global, sheet: &Locked) -> Result<(), AllocError> {
        let mut plan = Plan::new();
        let _ = solve(sheet, &Card::new(), &mut plan, &mut [0; PLACES]);
        let has_each_spot = plan.link_sets().len() == sheet.houses().len();
        for (spot, links) in link_sets(heap, sheet)?.iter().enumerate() {
            self.link_sets
                .add(has_each_spot && plan.link_sets().get(spot) == Some(links));
        }
        Ok(())
    }

    // What is read off a choice table.
    fn add_line_ups(&mut self, lawful: &Lawful, plan: &Plan, table: &[u8]) {
        self.steps
            .add(next(plan, table, None) == Ok(lawful.first()));
        for line_up in 0..1u32.wrapping_shl(lawful.spots()) {
            let chosen = lawful.chosen(line_up);
            self.instances
                .add(instance(plan, table, line_up) == Ok(chosen));
            let following = lawful.following(line_up).ok_or(Refusal::NotListed);
            self.steps
                .add(next(plan, table, Some(line_up)) == following);
        }
    }

    fn add_verdict(&mut self, heap: Global, question: Question<'_>) -> Result<(), AllocError> {
        let Question { sheet, card, .. } = question;
        let lawful = question.lawful_by_sheet.with_card(heap, &card)?;
        let mut plan = Plan::new();
        let mut table = [0; PLACES];
        let answer = solve(sheet, &card, &mut plan, &mut table);
        if lawful.is_empty() {
            self.verdicts.add(answer == Err(Refusal::NoLineUp));
            self.without_line_up = self.without_line_up.wrapping_add(1);
        } else {
            self.verdicts.add(answer == Ok(()));
            self.add_line_ups(&lawful, &plan, &table);
        }
        Ok(())
    }

    fn add_trial(
        &mut self,
        heap: Global,
        question: Question<'_>,
        spot: u32,
    ) -> Result<(), AllocError> {
        let mut card = question.card;
        let mut table = [UNWRITTEN; PLACES];
        let answer = trial(question.sheet, &mut card, spot, &mut table);
        let expected = question.tried(heap, spot)?;
        self.trials
            .add((answer, table) == expected && card == question.card);
        Ok(())
    }

    // Tries each spot, and one that the sheet does not have.
    fn add_trials(&mut self, heap: Global, question: Question<'_>) -> Result<(), AllocError> {
        for spot in 0..=question.lawful_by_sheet.spots() {
            self.add_trial(heap, question, spot)?;
        }
        Ok(())
    }
}

// The card at a place among all cards of some spots.
pub fn card_at(place: u32, spots: u32) -> Card {
    let mut card = Card::new();
    let mut rest = place;
    for spot in 0..spots {
        match rest % 3 {
            0 => {}
            1 => {
                let _ = card.pin(spot, Pin::In);
            }
            _ => {
                let _ = card.pin(spot, Pin::Out);
            }
        }
        rest /= 3;
    }
    card
}

// Asks of a sheet with every card.
pub fn compare(heap: Global, sheet: &Locked) -> Result<Comparison, AllocError> {
    let spots = spot_count(sheet);
    let lawful = Lawful::of(heap, sheet)?;
    let mut comparison = Comparison::default();
    comparison.add_link_sets(heap, sheet)?;
    for place in 0..3u32.wrapping_pow(spots) {
        let question = Question {
            sheet,
            lawful_by_sheet: &lawful,
            card: card_at(place, spots),
        };
        comparison.add_verdict(heap, question)?;
        comparison.add_trials(heap, question)?;
    }
    Ok(comparison)
}

impl fmt::Display for Comparison {
    fn fmt<W: fmt::Write>(&self, f: &mut fmt::Formatter<W>) -> fmt::Result {
        let link_sets = self.link_sets;
        let verdicts = self.verdicts;
        let without_line_up = self.without_line_up;
        let instances = self.instances;
        let steps = self.steps;
        let trials = self.trials;
        write!(
            f,
            "{link_sets} link sets agree, {verdicts} verdicts ({without_line_up} no line-up), "
        )?;
        write!(
            f,
            "{instances} instances, {steps} steps of next, {trials} trials"
        )
    }
}
