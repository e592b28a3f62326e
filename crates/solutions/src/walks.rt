// Walks along a choice table, from spot 0 up.
ghost use Rattle.std.specs.Prelude.{◌≡◌, ◌^◌, ◌<◌, ◌≤◌, length, None};
ghost use Rattle.sheet.specs.Limits.{most_spots};
ghost use Rattle.elimination.specs.Links.{need};
ghost use Rattle.elimination.specs.Codes.{taken, with_spot};
ghost use Rattle.solutions.specs.Walks.{instance_of};
ghost use Rattle.solutions.specs.Turns.{turned, turns_from};

use elimination::Code;
use elimination::cells::cell_count;
use elimination::eliminating::with_spot;
use terms::packs::pack;

// The cells of a choice table, with the link sets by which they are read.
#[derive(Clone, Copy)]
pub(crate) struct Reading<'a> {
    pub(crate) link_sets: &'a [u32],
    pub(crate) cells: &'a [u8],
    ghost few: { length link_sets.now ≤ most_spots },
    ghost room: { need link_sets.now ≤ length cells.now },
}

// What a walk comes to.
#[derive(Clone, Copy)]
pub(crate) struct Walk {
    pub(crate) line_up: u32,
    // Where both values are open and the walk goes on without the spot, it could have turned to the line-up so far with the spot. These are the
    // switches of the last such turn.
    pub(crate) turn: Option<u32>,
}

impl Walk {
    // One spot more, whose cell has this code.
    fn step(self, spot: usize, code: Code, switch: bool) -> Walk
        requires low { self.line_up < 2 ^ spot }
        requires spots { spot < most_spots }
        ensures line_up { result.line_up ≡ with_spot spot self.line_up (taken code switch) }
        ensures turn { result.turn ≡ turned code switch spot self.line_up self.turn }
    {
        let with_spot = with_spot(spot, self.line_up, true);
        match (code, switch) {
            (Code::Out | Code::Dead, _) => self,
            (Code::In, _) | (Code::Free, true) => Walk {
                line_up: with_spot,
                ..self
            },
            (Code::Free, false) => Walk {
                turn: Some(with_spot),
                ..self
            },
        }
    }
}

impl Reading<'_> {
    // Each spot runs as its code says, and where both values are open as its switch says.
    pub(crate) fn walk(&self, switches: u32) -> Walk
        ensures line_up { result.line_up ≡ instance_of self.now.link_sets.now self.now.cells.now switches }
        ensures turn { result.turn ≡ turns_from self.now.link_sets.now self.now.cells.now switches 0 0 None }
    {
        let mut walk = Walk {
            line_up: 0,
            turn: None,
        };
        let mut start = 0;
        for (spot, links) in self.link_sets.iter().enumerate() {
            let cell = start + pack(*links, walk.line_up) as usize;
            let code = Code::from(self.cells[cell]);
            walk = walk.step(spot, code, switches >> spot & 1 == 1);
            start += cell_count(*links);
        }
        walk
    }
}
