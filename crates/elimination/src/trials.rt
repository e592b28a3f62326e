// Trial: whether a spot fits into some lawful line-up.
ghost use Rattle.std.specs.Prelude.{◌≡◌, true, Ok, length};
ghost use Rattle.terms.specs.Refusals.{Uppermost};
ghost use Rattle.sheet.specs.Cards.{pins_of, pinned_so, spot_answered};
ghost use Rattle.elimination.specs.Of.{question_of};
ghost use Rattle.elimination.specs.Links.{link_sets};
ghost use Rattle.elimination.specs.Accepted.{LeftBySolve};
ghost use Rattle.elimination.specs.Answers.{tried, trial_rows, trial_answer, tried_table};
ghost use Rattle.elimination.specs.Verdicts.{YesSays};

use crate::plans::Plan;
use crate::solving::solve;
use sheet::{Card, Locked, Pin};
use terms::Refusal;

// A card that may be pinned otherwise for a while. The earlier pins come back when it ends, on every way out.
struct HeldCard<'a> {
    card: &'a mut Card,
    earlier: Card,
}

impl<'a> HeldCard<'a> {
    // Keeps the pins that the card has.
    fn new(card: &'a mut Card) -> Self
        ensures same_card { result.card.ghost_name ≡ card.entry.ghost_name }
        ensures now { result.card.now ≡ card.old }
        ensures earlier { result.earlier ≡ card.old }
    {
        let earlier = *card;
        HeldCard { card, earlier }
    }

    // Holds a spot in, out or to no pin.
    fn hold(&mut self, spot: u32, pin: Option<Pin>) -> Result<(), Refusal>
        ensures same_card { self.new.card.ghost_name ≡ self.old.card.ghost_name }
        ensures now { pins_of self.new.card.now ≡ pinned_so (pins_of self.old.card.now) spot pin }
        ensures earlier { self.new.earlier ≡ self.old.earlier }
        ensures answer { result ≡ spot_answered spot }
    {
        match pin {
            Some(pin) => self.card.pin(spot, pin),
            None => self.card.unpin(spot),
        }
    }
}

impl Drop for HeldCard<'_> {
    fn drop(self)
        ensures { self.exit.0.now ≡ self.entry.earlier }
    {
        let HeldCard { card, earlier } = self;
        *card = earlier;
    }
}

// Whether the spot can run: some line-up with it is lawful, whatever the card says of this spot. The table is left filled for the card with the
// spot pinned in; the card is as it was.
pub fn trial(sheet: &Locked, card: &mut Card, spot: u32, table: &mut [u8]) -> Result<bool, Refusal>
    ensures answer { result ≡ trial_answer (question_of sheet.now card.old) spot (length table.old) }
    ensures table { table.new ≡ tried_table (question_of sheet.now card.old) spot table.old }
    ensures left { result ≡ Ok true → LeftBySolve (tried (question_of sheet.now card.old) spot) (link_sets (question_of sheet.now card.old).contents) table.new }
    ensures same_card { card.new ≡ card.old }
    ensures uppermost { Uppermost (trial_rows (question_of sheet.now card.old) spot (length table.old)) }
    ensures yes { YesSays (question_of sheet.now card.old) spot }
{
    if spot as usize >= sheet.houses().len() {
        return Err(Refusal::OffSheet);
    }
    let mut held = HeldCard::new(card);
    held.hold(spot, Some(Pin::In))?;
    let mut plan = Plan::new();
    let Err(refusal) = solve(sheet, held.card, &mut plan, table) else {
        return Ok(true);
    };
    if refusal == Refusal::NoLineUp {
        Ok(false)
    } else {
        Err(refusal)
    }
}
