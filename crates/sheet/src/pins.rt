// The calls on a card.
ghost use Rattle.std.specs.Prelude.{◌≡◌, map};
ghost use Rattle.sheet.specs.Cards.{no_pins, pins_of, names, pinned_so, spot_answered, pin_step, pin_answer, tell_pins, Sets, Clears};
ghost use Rattle.sheet.specs.Cards.{pin_call};
ghost use Rattle.sheet.specs.History.{noted};

use crate::cards::{Card, Pin, Pinning};
use crate::limits::MOST_SPOTS;
use crate::replays::replay_with;
use terms::Refusal;

impl Card {
    // A card that pins no spot.
    pub fn new() -> Self
        ensures { pins_of result ≡ no_pins }
    {
        Card {
            pins: [None; MOST_SPOTS],
        }
    }

    // Pins a spot, whatever pin it had.
    pub fn pin(&mut self, spot: u32, pin: Pin) -> Result<(), Refusal>
        ensures after { pins_of self.new ≡ pin_step (pins_of self.old) (Sets spot pin) }
        ensures answer { result ≡ pin_answer (Sets spot pin) }
    {
        self.put(spot, Some(pin))
    }

    // Clears the pin of a spot.
    pub fn unpin(&mut self, spot: u32) -> Result<(), Refusal>
        ensures after { pins_of self.new ≡ pin_step (pins_of self.old) (Clears spot) }
        ensures answer { result ≡ pin_answer (Clears spot) }
    {
        self.put(spot, None)
    }

    // Holds a spot to a pin or to none.
    fn put(&mut self, spot: u32, pin: Option<Pin>) -> Result<(), Refusal>
        ensures after { pins_of self.new ≡ pinned_so (pins_of self.old) spot pin }
        ensures answer { result ≡ spot_answered spot }
    {
        // By index: tried by `get_mut`, the proof did not learn what the array holds afterwards.
        if spot as usize >= MOST_SPOTS {
            return Err(Refusal::OffSheet);
        }
        self.pins[spot as usize] = pin;
        Ok(())
    }

    // The pin of a spot, where it has one.
    pub fn pin_of(&self, spot: u32) -> Option<Pin>
        ensures { result ≡ pins_of self.now spot }
    {
        *self.pins.get(spot as usize)?
    }

    // The card names a spot that it pins.
    pub fn names(&self, spot: u32) -> bool
        ensures { result ≡ names (pins_of self.now) spot }
    {
        self.pin_of(spot).is_some()
    }

    // Makes a call on the card.
    pub fn make(&mut self, pinning: Pinning) -> Result<(), Refusal>
        ensures after { pins_of self.new ≡ pin_step (pins_of self.old) (pin_call pinning) }
        ensures answer { result ≡ pin_answer (pin_call pinning) }
    {
        match pinning {
            Pinning::Pin { spot, pin } => self.pin(spot, pin),
            Pinning::Unpin { spot } => self.unpin(spot),
        }
    }
}

// Makes the calls of a history on a new card, in their order. Each answer is noted at its call's place, as far as `answers` reaches; what
// lies beyond the history stays.
pub fn replay_pins(history: &[Pinning], answers: &mut [Result<(), Refusal>]) -> Card
    ensures after { pins_of result ≡ tell_pins (map pin_call history.now) }
    ensures answers { answers.new ≡ noted answers.old (map pin_answer (map pin_call history.now)) }
{
    // The state that goes from call to call is a loan of the card, so that no turn copies the card.
    let mut card = Card::new();
    replay_with(&mut card, history, answers, |card: &mut Card, pinning| {
        let answer = card.make(pinning);
        (card, answer)
    });
    card
}
