// How the answers about figures read.
ghost use Rattle.std.specs.Prelude.{Some};
ghost use Rattle.sheet.specs.History.{rule_seen};
ghost use Rattle.booking_day.specs.Texts.{count_text, takings_text, best_text};

use crate::line_up_texts::{Length, LineUp};
use crate::texts::Refused;
use lineup::Refusal;
use std::fmt;

// What `rate` answered under count.
#[derive(Clone, Copy)]
pub struct CountLine(pub Result<u64, Refusal>);

impl fmt::Display for CountLine {
    ghost output = { λ c. Some (count_text c.0) };

    fn fmt<W: fmt::Write>(&self, f: &mut fmt::Formatter<W>) -> fmt::Result {
        f.write_str("rate by count -> ")?;
        match self.0 {
            Ok(count) => write!(f, "{count}"),
            Err(refusal) => write!(f, "{}", Refused(refusal)),
        }
    }
}

// What `takings` answered.
#[derive(Clone, Copy)]
pub struct TakingsLine(pub Result<i64, Refusal>);

impl fmt::Display for TakingsLine {
    ghost output = { λ t. Some (takings_text t.0) };

    fn fmt<W: fmt::Write>(&self, f: &mut fmt::Formatter<W>) -> fmt::Result {
        f.write_str("takings -> ")?;
        match self.0 {
            Ok(amount) => write!(f, "{amount}"),
            Err(refusal) => write!(f, "{}", Refused(refusal)),
        }
    }
}

// What `best` answered under takings: the figure, and the line-up with how much of the break it takes.
#[derive(Clone, Copy)]
pub struct BestLine<'a> {
    pub length: Length<'a>,
    pub answer: Result<(u64, u32), Refusal>,
}

impl fmt::Display for BestLine<'_> {
    ghost output = { λ b. Some (best_text (rule_seen b.length.rule) b.answer) };

    fn fmt<W: fmt::Write>(&self, f: &mut fmt::Formatter<W>) -> fmt::Result {
        let length = self.length;
        f.write_str("best by takings -> ")?;
        match self.answer {
            Ok((figure, line_up)) => {
                write!(f, "figure {figure} of {}", LineUp { length, line_up })
            }
            Err(refusal) => write!(f, "{}", Refused(refusal)),
        }
    }
}
