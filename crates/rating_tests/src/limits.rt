// Tests of the largest sheets and numbers.
use crate::desk::*;
use fewest_clashes::FewestClashes;
use lineup::Pin::*;
use lineup::Relation::*;
use lineup::*;
use std::process::Abort;
use std::test::Fail;

// Spot 12 with 12 linked spots, one more than is taken.
pub const TWELVE_LINKS: Book = Book {
    spots: 13,
    rules: &[],
    prices: &[(1, 0x11ff), (1, 0x1e00)],
};

// The same, and no line-up is lawful.
pub const TWELVE_LINKS_UNLAWFUL: Book = Book {
    spots: 13,
    rules: &[(0, Equal, 1, &[(2, 1)])],
    prices: &[(1, 0x11ff), (1, 0x1e00)],
};

// 32 spots that may run or not, of which some have a price of their own.
const FREE_SPOTS: Book = Book {
    spots: 32,
    rules: &[],
    prices: &[(50, 1), (-50, 1 << 16), (1, 1 << 30), (1, 1 << 31)],
};

#[test]
fn line_ups_of_32_spots_are_counted(rt: HostRuntime) -> Result<(), Fail> {
    let mut desk = Desk::new(&rt, rt.alloc(), &FREE_SPOTS, &[], (32, 32))?;
    desk.rate(&Count, Ok(1 << 32))?;
    desk.assert_figures(&[2; 32]);
    desk.best(&Takings, Ok((102, 0xc000_0001)))?;
    desk.takings(Ok(52))?;
    desk.card = card_with(&rt, &[(16, In)]);
    desk.rate(&Count, Ok(1 << 31))?;
    desk.takings(Ok(2))?;
    desk.best(&Takings, Ok((52, 0xc001_0001)))
}

// The largest number of prices, each of this amount, over eight spots.
fn dear_sheet<R: Abort>(rt: &R, amount: i32) -> Locked {
    let mut draft = Draft::new();
    for spot in 0..8 {
        assert_eq!(rt; draft.declare(spot), Ok(spot));
    }
    for group in 1..=MOST_PRICES as u32 {
        assert_eq!(rt; draft.price(amount, group), Ok(()));
    }
    draft.lock()
}

// An amount, whether all spots are pinned in, and the takings, their figure and the line-up.
type Dear = (i32, bool, i64, u64, u32);

static DEAR: [Dear; 4] = [
    (1_000_000, false, 128_000_000, 128_000_000, 255),
    (1_000_000, true, 128_000_000, 128_000_000, 255),
    (-1_000_000, false, 0, 128_000_000, 0),
    (-1_000_000, true, -128_000_000, 0, 255),
];

#[test]
fn the_largest_takings_are_told(rt: HostRuntime) -> Result<(), Fail> {
    for &(amount, pinned, sum, figure, line_up) in &DEAR {
        let sheet = dear_sheet(&rt, amount);
        let mut card = Card::new();
        for spot in 0..if pinned { 8 } else { 0 } {
            assert_eq!(rt; card.pin(spot, In), Ok(()));
        }
        let mut choices = [0; 128];
        let mut figures = [0; 128];
        assert_eq!(rt; takings(&sheet, &card, &mut choices, &mut figures), Ok(sum));
        let best = best(&sheet, &card, &Takings, &mut choices, &mut figures);
        assert_eq!(rt; best, Ok((figure, line_up)));
    }
    Ok(())
}

// A sheet of 32 spots, each linked with the 11 next lower ones, as far as there are so many.
fn widest_sheet<R: Abort>(rt: &R) -> Locked {
    let mut draft = Draft::new();
    for spot in 0..32 {
        assert_eq!(rt; draft.declare(spot), Ok(spot));
    }
    assert_eq!(rt; draft.price(1, 0xffc0_0000), Ok(()));
    assert_eq!(rt; draft.price(1, 0x8030_0000), Ok(()));
    for lowest in 0..20 {
        assert_eq!(rt; draft.price(1, 0x801u32.wrapping_shl(lowest)), Ok(()));
    }
    draft.lock()
}

#[test]
fn the_widest_sheet_is_rated(rt: HostRuntime) -> Result<(), Fail> {
    let sheet = widest_sheet(&rt);
    let card = Card::new();
    let mut choices = vec![in rt.alloc(); UNWRITTEN; MOST_CELLS]?;
    let mut figures = vec![in rt.alloc(); 0; MOST_CELLS - 1]?;
    let short = rate(&sheet, &card, &Count, &mut choices, &mut figures);
    assert_eq!(rt; short, Err(Refusal::Short));
    assert!(rt; choices.iter().all(|code| *code == UNWRITTEN));
    figures.push(0)?;
    let count = rate(&sheet, &card, &Count, &mut choices, &mut figures);
    assert_eq!(rt; count, Ok(1 << 32));
    let all = best(&sheet, &card, &Takings, &mut choices, &mut figures);
    assert_eq!(rt; all, Ok((22, u32::MAX)));
    let mut clashes = vec![in rt.alloc(); 0; MOST_CELLS]?;
    let none = best(&sheet, &card, &FewestClashes, &mut choices, &mut clashes);
    assert_eq!(rt; none, Ok((0, 0)));
    Ok(())
}
