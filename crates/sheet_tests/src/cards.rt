// Tests of pin cards.
use crate::desk::assert_noted;
use lineup::Pin::*;
use lineup::Refusal::*;
use lineup::*;
use std::process::Abort;
use std::test::Fail;

fn pin(spot: u32, pin: Pin) -> Pinning {
    Pinning::Pin { spot, pin }
}

fn unpin(spot: u32) -> Pinning {
    Pinning::Unpin { spot }
}

// The card names these spots, with these pins, and no other.
fn assert_pins(rt: &impl Abort, card: &Card, pins: &[(u32, Pin)]) {
    for spot in (0..100).chain([u32::MAX]) {
        let found = pins.iter().find(|(pinned, _)| *pinned == spot);
        assert_eq!(rt;
            card.pin_of(spot),
            found.map(|(_, pin)| *pin),
            "spot {spot}"
        );
        assert_eq!(rt; card.names(spot), found.is_some(), "spot {spot}");
    }
}

// A spot, the pin that it is given or loses, the answer, and the pins that the card then has.
type Step = (u32, Option<Pin>, Result<(), Refusal>, &'static [(u32, Pin)]);

static STEPS: [Step; 14] = [
    (0, None, Ok(()), &[]),
    (31, Some(Out), Ok(()), &[(31, Out)]),
    (0, Some(In), Ok(()), &[(0, In), (31, Out)]),
    (32, Some(In), Err(OffSheet), &[(0, In), (31, Out)]),
    (u32::MAX, Some(Out), Err(OffSheet), &[(0, In), (31, Out)]),
    (32, None, Err(OffSheet), &[(0, In), (31, Out)]),
    (u32::MAX, None, Err(OffSheet), &[(0, In), (31, Out)]),
    (0, Some(Out), Ok(()), &[(0, Out), (31, Out)]),
    (31, Some(In), Ok(()), &[(0, Out), (31, In)]),
    (31, Some(In), Ok(()), &[(0, Out), (31, In)]),
    (30, None, Ok(()), &[(0, Out), (31, In)]),
    (31, None, Ok(()), &[(0, Out)]),
    (31, None, Ok(()), &[(0, Out)]),
    (0, None, Ok(()), &[]),
];

#[test]
fn spots_are_pinned_and_cleared(rt: HostRuntime) {
    let mut card = Card::new();
    assert_pins(&rt, &card, &[]);
    for &(spot, wish, answer, pins) in &STEPS {
        let got = match wish {
            Some(pin) => card.pin(spot, pin),
            None => card.unpin(spot),
        };
        assert_eq!(rt; got, answer);
        assert_pins(&rt, &card, pins);
    }
}

#[test]
fn a_card_has_32_spots(rt: HostRuntime) -> Result<(), Fail> {
    let mut card = Card::new();
    // The pins grow with the card, which is looked at after each.
    let mut pins = Vec::new(rt.alloc());
    for spot in 0..32 {
        assert_eq!(rt; card.pin(spot, Out), Ok(()));
        pins.push((spot, Out))?;
        assert_pins(&rt, &card, &pins);
    }
    assert_eq!(rt; card.pin(32, Out), Err(OffSheet));
    assert_pins(&rt, &card, &pins);
    Ok(())
}

#[test]
fn a_history_of_pins_is_replayed(rt: HostRuntime) -> Result<(), Fail> {
    let history = [
        pin(3, In),
        pin(32, In),
        pin(3, Out),
        pin(31, In),
        unpin(u32::MAX),
        unpin(31),
        pin(0, In),
    ];
    let mut card = Card::new();
    let made = history.map(|pinning| card.make(pinning));
    assert_pins(&rt, &card, &[(0, In), (3, Out)]);
    for room in 0..10 {
        let mut answers = vec![in rt.alloc(); Err(Short); room]?;
        let replayed = replay_pins(&history, &mut answers);
        assert_pins(&rt, &replayed, &[(0, In), (3, Out)]);
        assert_noted(&rt, &answers, &made, Err(Short));
    }
    let off = Err(OffSheet);
    assert_eq!(rt; made, [Ok(()), off, Ok(()), Ok(()), off, Ok(()), Ok(())]);
    Ok(())
}
