// The kinds of record that a sheet file has.
ghost use Rattle.std.specs.Prelude.{◌≡◌, ◌+◌};
ghost use Rattle.sheet_file.specs.Kinds.{kind_number, kind_of, body_length};

// What a record tells of. The number is its first byte.
#[derive(Clone, Copy)]
pub(crate) enum Kind {
    Spot = 1,
    Rule = 2,
    // A term of the latest rule.
    Term = 3,
    Price = 4,
}

impl Kind {
    // The first byte of a record of this kind.
    pub(crate) fn number(self) -> u8
        ensures { result ≡ kind_number self }
    {
        self as u8
    }

    // The kind that a record's first byte names, where it names one.
    pub(crate) fn of(number: u8) -> Option<Kind>
        ensures { result ≡ kind_of number }
    {
        match number {
            1 => Some(Kind::Spot),
            2 => Some(Kind::Rule),
            3 => Some(Kind::Term),
            4 => Some(Kind::Price),
            _ => None,
        }
    }

    // How many bytes follow the first one.
    pub(crate) fn body_length(self) -> usize
        ensures { result ≡ body_length self }
    {
        match self {
            Kind::Spot => 4,
            Kind::Rule => 6,
            Kind::Term | Kind::Price => 8,
        }
    }

    // How many bytes a record of this kind has: that of the kind, and its body.
    pub(crate) fn record_length(self) -> usize
        ensures { result ≡ body_length self + 1 }
    {
        self.body_length() + 1
    }
}
