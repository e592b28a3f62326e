// The refusals that a call can answer, each with its number and its word.
ghost use Rattle.std.specs.Prelude.{◌≡◌, Some};
ghost use Rattle.terms.specs.Refusals.{refusal_number, refusal_word};

use std::error::Error;
use std::fmt;

// Why a call was refused. Every refused call leaves everything as it was, except that "no line-up" leaves its tables filled.
#[derive(Clone, Copy, PartialEq, Eq, Debug)]
pub enum Refusal {
    OffSheet = 1,
    Full = 2,
    Twice = 3,
    Blank = 4,
    OutOfRange = 5,
    Crowded = 6,
    NotLive = 7,
    TooWide = 8,
    Short = 9,
    NoLineUp = 10,
    NotListed = 11,
    OddLength = 12,
}

impl Refusal {
    // The number by which files and output name the refusal.
    pub fn number(self) -> u8
        ensures { result ≡ refusal_number self }
    {
        self as u8
    }

    // The refusal in words.
    pub fn word(self) -> &'static str
        ensures { result.now ≡ refusal_word self }
    {
        match self {
            Refusal::OffSheet => "off sheet",
            Refusal::Full => "full",
            Refusal::Twice => "twice",
            Refusal::Blank => "blank",
            Refusal::OutOfRange => "out of range",
            Refusal::Crowded => "crowded",
            Refusal::NotLive => "not live",
            Refusal::TooWide => "too wide",
            Refusal::Short => "short",
            Refusal::NoLineUp => "no line-up",
            Refusal::NotListed => "not listed",
            Refusal::OddLength => "odd length",
        }
    }
}

// A refusal prints as its word.
impl fmt::Display for Refusal {
    ghost output = { λ refusal. Some (refusal_word refusal) };

    fn fmt<W: fmt::Write>(&self, f: &mut fmt::Formatter<W>) -> fmt::Result {
        f.write_str(self.word())
    }
}

impl Error for Refusal {}
