// Why a file is refused.
ghost use Rattle.std.specs.Prelude.{◌≡◌, Some};
ghost use Rattle.sheet_file.specs.Faults.{fault_number, file_refusal_number, file_refusal_word, StandsBelow};

use std::error::Error;
use std::fmt;
use terms::Refusal;

// What is wrong with a record: the file is at fault, or a refusal fits what the record adds to the sheet.
#[derive(Clone, Copy, PartialEq, Eq, Debug)]
pub enum FileFault {
    // An unknown kind, a record that the end of the file cuts, one that is not to stand there, or a rule number that does not rise.
    Flaw,
    // One of the refusals 1 to 6.
    Cause(Refusal),
}

impl FileFault {
    // The number by which output tells the fault: 0 for a flaw, else that of the sheet's refusal.
    pub fn number(self) -> u8
        ensures { result ≡ fault_number self }
    {
        match self {
            FileFault::Flaw => 0,
            FileFault::Cause(refusal) => refusal.number(),
        }
    }
}

// Why a file is refused, with the place of the record that is to blame. The place is that of the record's first byte, counted in bytes from 0.
#[derive(Clone, Copy, PartialEq, Eq, Debug)]
pub enum FileRefusal {
    BadFile { place: usize, fault: FileFault },
}

impl FileRefusal {
    // The number by which output names the refusal. Its row stands below those of all plain refusals.
    pub fn number(self) -> u8
        ensures value { result ≡ file_refusal_number self }
        ensures row { StandsBelow self }
    {
        match self {
            FileRefusal::BadFile { .. } => 13,
        }
    }

    // The refusal in words.
    pub fn word(self) -> &'static str
        ensures { result.now ≡ file_refusal_word self }
    {
        match self {
            FileRefusal::BadFile { .. } => "bad file",
        }
    }
}

// A file's refusal prints as its word.
impl fmt::Display for FileRefusal {
    ghost output = { λ refusal. Some (file_refusal_word refusal) };

    fn fmt<W: fmt::Write>(&self, f: &mut fmt::Formatter<W>) -> fmt::Result {
        f.write_str(self.word())
    }
}

impl Error for FileRefusal {}
