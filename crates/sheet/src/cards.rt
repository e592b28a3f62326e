// Pin cards: which spots are held in or out.
ghost use Rattle.std.specs.Prelude.{◌≡◌, length};
ghost use Rattle.sheet.specs.Limits.{most_spots};

use crate::limits::MOST_SPOTS;

// What a spot is held to: in the line-up, or out of it.
#[derive(Clone, Copy, PartialEq, Eq, Debug)]
pub enum Pin {
    In,
    Out,
}

// A card pins each spot in, out or not at all. It has no `Model`: contracts see the pins as a function, and a model's value is data.
#[derive(Clone, Copy, PartialEq, Eq, Debug)]
pub struct Card {
    pub(crate) pins: [Option<Pin>; MOST_SPOTS],
    ghost size: { length pins ≡ most_spots },
}

// A call on a card with its arguments, which nobody has screened.
#[derive(Clone, Copy, PartialEq, Eq, Debug)]
pub enum Pinning {
    Pin { spot: u32, pin: Pin },
    Unpin { spot: u32 },
}
