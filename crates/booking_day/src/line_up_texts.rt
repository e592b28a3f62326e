// How codes, line-ups and the answers about them read.
ghost use Rattle.std.specs.Prelude.{◌^◌, ◌<◌, length, Some};
ghost use Rattle.sheet.specs.History.{rule_seen};
ghost use Rattle.booking_day.specs.Texts.{need_text, code_text, code_line_text, cells_order_text, codes_text, cells_text, line_up_text, next_answer_text};
ghost use Rattle.booking_day.specs.Texts.{solve_text, next_text, instance_text, fits_text, trial_text, pin_text, present_text};

use crate::texts::{Group, Refused, Reply};
use lineup::{Answer, Code, Refusal, Rule};
use std::fmt;
use terms::worths::worth;

// How many cells a choice table needs.
#[derive(Clone, Copy)]
pub struct NeedLine(pub usize);

impl fmt::Display for NeedLine {
    ghost output = { λ n. Some (need_text n.0) };

    fn fmt<W: fmt::Write>(&self, f: &mut fmt::Formatter<W>) -> fmt::Result {
        write!(f, "cells needed {}", self.0)
    }
}

// What a code means.
#[derive(Clone, Copy)]
struct Meaning(Code);

impl fmt::Display for Meaning {
    ghost output = { λ m. Some (code_text m.0) };

    fn fmt<W: fmt::Write>(&self, f: &mut fmt::Formatter<W>) -> fmt::Result {
        f.write_str(match self.0 {
            Code::Out => "out: the spot does not run",
            Code::In => "in: the spot runs",
            Code::Free => "free: the spot can be switched in or out",
            Code::Dead => "dead: no lawful line-up sets the spots beside it so",
        })
    }
}

// A code's number, with what it means.
#[derive(Clone, Copy)]
pub struct CodeLine(pub Code);

impl fmt::Display for CodeLine {
    ghost output = { λ c. Some (code_line_text c.0) };

    fn fmt<W: fmt::Write>(&self, f: &mut fmt::Formatter<W>) -> fmt::Result {
        let code = self.0;
        write!(f, "code {} {}", code.number(), Meaning(code))
    }
}

// In what order the codes of a spot's cells are shown.
#[derive(Clone, Copy)]
pub struct CellsOrder;

impl fmt::Display for CellsOrder {
    ghost output = { λ o. Some cells_order_text };

    fn fmt<W: fmt::Write>(&self, f: &mut fmt::Formatter<W>) -> fmt::Result {
        f.write_str(
            "a spot has a code for each setting of the spots beside it: none in, the lowest in, the next in, both in, and so on",
        )
    }
}

// The codes as which bytes are read, each by its number.
#[derive(Clone, Copy)]
struct Codes<'a>(&'a [u8]);

impl fmt::Display for Codes<'_> {
    ghost output = { λ c. Some (codes_text c.0.now) };

    fn fmt<W: fmt::Write>(&self, f: &mut fmt::Formatter<W>) -> fmt::Result {
        for &byte in self.0 {
            write!(f, " {}", Code::from(byte).number())?;
        }
        Ok(())
    }
}

// A spot with its link set and the codes of its cells.
#[derive(Clone, Copy)]
pub struct CellsLine<'a> {
    pub spot: usize,
    pub links: u32,
    pub cells: &'a [u8],
}

impl fmt::Display for CellsLine<'_> {
    ghost output = { λ c. Some (cells_text c.spot c.links c.cells.now) };

    fn fmt<W: fmt::Write>(&self, f: &mut fmt::Formatter<W>) -> fmt::Result {
        let links = Group(self.links);
        let codes = Codes(self.cells);
        write!(f, "spot {} beside {links}:{codes}", self.spot)
    }
}

// The rule that says how long a break is. Its terms are few enough for their sum.
#[derive(Clone, Copy)]
pub struct Length<'a> {
    pub rule: Rule<'a>,
    ghost few: { length rule.terms.now < 2 ^ 32 },
}

// A line-up, with how much of the break it takes.
#[derive(Clone, Copy)]
pub struct LineUp<'a> {
    pub length: Length<'a>,
    pub line_up: u32,
}

impl fmt::Display for LineUp<'_> {
    ghost output = { λ l. Some (line_up_text (rule_seen l.length.rule) l.line_up) };

    fn fmt<W: fmt::Write>(&self, f: &mut fmt::Formatter<W>) -> fmt::Result {
        let rule = self.length.rule;
        let seconds = worth(rule.terms, self.line_up);
        write!(
            f,
            "line-up {}: {seconds} of {} seconds",
            Group(self.line_up),
            rule.bound
        )
    }
}

// The line-up that is to run at present.
#[derive(Clone, Copy)]
pub struct PresentLine<'a>(pub LineUp<'a>);

impl fmt::Display for PresentLine<'_> {
    ghost output = { λ p. Some (present_text (rule_seen p.0.length.rule) p.0.line_up) };

    fn fmt<W: fmt::Write>(&self, f: &mut fmt::Formatter<W>) -> fmt::Result {
        write!(f, "present {}", self.0)
    }
}

// What `solve` answered.
#[derive(Clone, Copy)]
pub struct SolveLine(pub Result<(), Refusal>);

impl fmt::Display for SolveLine {
    ghost output = { λ s. Some (solve_text s.0) };

    fn fmt<W: fmt::Write>(&self, f: &mut fmt::Formatter<W>) -> fmt::Result {
        write!(f, "solve -> {}", Reply(Answer::from(self.0)))
    }
}

// What pinning a spot in answered.
#[derive(Clone, Copy)]
pub struct PinLine {
    pub spot: u32,
    pub answer: Result<(), Refusal>,
}

impl fmt::Display for PinLine {
    ghost output = { λ p. Some (pin_text p.spot p.answer) };

    fn fmt<W: fmt::Write>(&self, f: &mut fmt::Formatter<W>) -> fmt::Result {
        let reply = Reply(Answer::from(self.answer));
        write!(f, "pin spot {} in -> {reply}", self.spot)
    }
}

// Whether a spot fits into some lawful line-up.
#[derive(Clone, Copy)]
struct Fits(bool);

impl fmt::Display for Fits {
    ghost output = { λ f. Some (fits_text f.0) };

    fn fmt<W: fmt::Write>(&self, f: &mut fmt::Formatter<W>) -> fmt::Result {
        f.write_str(if self.0 { "fits" } else { "does not fit" })
    }
}

// What `trial` answered of a spot.
#[derive(Clone, Copy)]
pub struct TrialLine {
    pub spot: u32,
    pub answer: Result<bool, Refusal>,
}

impl fmt::Display for TrialLine {
    ghost output = { λ t. Some (trial_text t.spot t.answer) };

    fn fmt<W: fmt::Write>(&self, f: &mut fmt::Formatter<W>) -> fmt::Result {
        write!(f, "trial of spot {} -> ", self.spot)?;
        match self.answer {
            Ok(fits) => write!(f, "{}", Fits(fits)),
            Err(refusal) => write!(f, "{}", Refused(refusal)),
        }
    }
}

// What `next` answered: the line-up that follows, with how much of the break it takes.
#[derive(Clone, Copy)]
struct Following<'a> {
    length: Length<'a>,
    answer: Result<Option<u32>, Refusal>,
}

impl fmt::Display for Following<'_> {
    ghost output = { λ n. Some (next_answer_text (rule_seen n.length.rule) n.answer) };

    fn fmt<W: fmt::Write>(&self, f: &mut fmt::Formatter<W>) -> fmt::Result {
        let length = self.length;
        match self.answer {
            Ok(Some(line_up)) => write!(f, "{}", LineUp { length, line_up }),
            Ok(None) => f.write_str("no further line-up"),
            Err(refusal) => write!(f, "{}", Refused(refusal)),
        }
    }
}

// And after which line-up it was asked, if after one.
#[derive(Clone, Copy)]
pub struct NextLine<'a> {
    pub length: Length<'a>,
    pub after: Option<u32>,
    pub answer: Result<Option<u32>, Refusal>,
}

impl fmt::Display for NextLine<'_> {
    ghost output = { λ n. Some (next_text (rule_seen n.length.rule) n.after n.answer) };

    fn fmt<W: fmt::Write>(&self, f: &mut fmt::Formatter<W>) -> fmt::Result {
        let NextLine {
            length,
            after,
            answer,
        } = *self;
        let following = Following { length, answer };
        match after {
            None => write!(f, "next -> {following}"),
            Some(line_up) => write!(f, "next after {} -> {following}", Group(line_up)),
        }
    }
}

// What `instance` answered of switches: the line-up, with how much of the break it takes.
#[derive(Clone, Copy)]
pub struct InstanceLine<'a> {
    pub length: Length<'a>,
    pub switches: u32,
    pub answer: Result<u32, Refusal>,
}

impl fmt::Display for InstanceLine<'_> {
    ghost output = { λ i. Some (instance_text (rule_seen i.length.rule) i.switches i.answer) };

    fn fmt<W: fmt::Write>(&self, f: &mut fmt::Formatter<W>) -> fmt::Result {
        let InstanceLine {
            length,
            switches,
            answer,
        } = *self;
        write!(f, "instance by switches {} -> ", Group(switches))?;
        match answer {
            Ok(line_up) => write!(f, "{}", LineUp { length, line_up }),
            Err(refusal) => write!(f, "{}", Refused(refusal)),
        }
    }
}
