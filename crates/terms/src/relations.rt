// The relations between the sum of a rule's terms and its bound.
ghost use Rattle.std.specs.Prelude.{◌≡◌, Some};
ghost use Rattle.terms.specs.Relations.{relation_number, relation_of, relation_word, meets, IsRelationOf};

use crate::refusals::Refusal;
use std::fmt;

// How the sum of a rule's terms stands to its bound.
#[derive(Clone, Copy, PartialEq, Eq, Debug)]
pub enum Relation {
    Equal = 0,
    AtMost = 1,
    AtLeast = 2,
}

impl Relation {
    // The number by which calls and files name the relation.
    pub fn number(self) -> u8
        ensures value { result ≡ relation_number self }
        ensures back { relation_of result ≡ Some self }
    {
        self as u8
    }

    // The relation in words.
    pub fn word(self) -> &'static str
        ensures { result.now ≡ relation_word self }
    {
        match self {
            Relation::Equal => "equal to",
            Relation::AtMost => "at most",
            Relation::AtLeast => "at least",
        }
    }

    // Whether the sum of a rule's terms stands in the relation to the rule's bound.
    pub fn meets(self, bound: i32, sum: i64) -> bool
        ensures { result ≡ meets self bound sum }
    {
        let bound = i64::from(bound);
        match self {
            Relation::Equal => sum == bound,
            Relation::AtMost => sum <= bound,
            Relation::AtLeast => sum >= bound,
        }
    }
}

// The relation with a number. A number that no relation has is out of range.
impl TryFrom<u8> for Relation {
    type Error = Refusal;

    ghost try_from_gives = { IsRelationOf };

    fn try_from(number: u8) -> Result<Relation, Refusal> {
        match number {
            0 => Ok(Relation::Equal),
            1 => Ok(Relation::AtMost),
            2 => Ok(Relation::AtLeast),
            _ => Err(Refusal::OutOfRange),
        }
    }
}

// A relation prints as its word.
impl fmt::Display for Relation {
    ghost output = { λ relation. Some (relation_word relation) };

    fn fmt<W: fmt::Write>(&self, f: &mut fmt::Formatter<W>) -> fmt::Result {
        f.write_str(self.word())
    }
}
