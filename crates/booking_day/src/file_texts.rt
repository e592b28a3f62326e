// How the answers about files read.
ghost use Rattle.std.specs.Prelude.{Some};
ghost use Rattle.booking_day.specs.Texts.{write_text, fault_text, bad_file_text, contents_text, read_text};

use crate::texts::Refused;
use lineup::{FileFault, FileRefusal, Refusal};
use std::fmt;

// What `write` answered.
#[derive(Clone, Copy)]
pub struct WriteLine(pub Result<usize, Refusal>);

impl fmt::Display for WriteLine {
    ghost output = { λ w. Some (write_text w.0) };

    fn fmt<W: fmt::Write>(&self, f: &mut fmt::Formatter<W>) -> fmt::Result {
        f.write_str("write -> ")?;
        match self.0 {
            Ok(length) => write!(f, "file of {length} bytes"),
            Err(refusal) => write!(f, "{}", Refused(refusal)),
        }
    }
}

// What is wrong with a record.
#[derive(Clone, Copy)]
struct Fault(FileFault);

impl fmt::Display for Fault {
    ghost output = { λ f. Some (fault_text f.0) };

    fn fmt<W: fmt::Write>(&self, f: &mut fmt::Formatter<W>) -> fmt::Result {
        f.write_str(match self.0 {
            FileFault::Flaw => "flaw",
            FileFault::Cause(refusal) => refusal.word(),
        })
    }
}

// A file's refusal with its number, the place that is to blame, and the fault there with its own number.
#[derive(Clone, Copy)]
struct BadFile(FileRefusal);

impl fmt::Display for BadFile {
    ghost output = { λ b. Some (bad_file_text b.0) };

    fn fmt<W: fmt::Write>(&self, f: &mut fmt::Formatter<W>) -> fmt::Result {
        let refusal = self.0;
        let FileRefusal::BadFile { place, fault } = refusal;
        write!(f, "refused {} {refusal} at {place}: ", refusal.number())?;
        write!(f, "{} {}", fault.number(), Fault(fault))
    }
}

// Whether what was read back is what was written.
#[derive(Clone, Copy)]
struct Contents(bool);

impl fmt::Display for Contents {
    ghost output = { λ c. Some (contents_text c.0) };

    fn fmt<W: fmt::Write>(&self, f: &mut fmt::Formatter<W>) -> fmt::Result {
        f.write_str(if self.0 {
            "the same spots, rules and prices"
        } else {
            "other spots, rules or prices"
        })
    }
}

// What `read` answered, and what came of the sheet: whether it holds the same, and how many term places were unused before and are now.
#[derive(Clone, Copy)]
pub struct ReadLine {
    pub answer: Result<(), FileRefusal>,
    pub same: bool,
    pub before: usize,
    pub after: usize,
}

impl fmt::Display for ReadLine {
    ghost output = { λ r. Some (read_text r.answer r.same r.before r.after) };

    fn fmt<W: fmt::Write>(&self, f: &mut fmt::Formatter<W>) -> fmt::Result {
        f.write_str("read -> ")?;
        match self.answer {
            Ok(()) => {
                let contents = Contents(self.same);
                write!(
                    f,
                    "{contents}; unused places {} -> {}",
                    self.before, self.after
                )
            }
            Err(refusal) => write!(f, "{}", BadFile(refusal)),
        }
    }
}
