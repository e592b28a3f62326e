// What terms are worth at a line-up.
ghost use Rattle.std.specs.Prelude.{◌≡◌, ◌^◌, ◌<◌, ◌≤◌, length, unsigned_abs};
ghost use Rattle.terms.specs.Terms.{term_worth, worth};

use crate::polynomials::Term;

impl Term {
    // What the term is worth at a line-up.
    fn worth(self, line_up: u32) -> i64
        ensures value { result ≡ term_worth self line_up }
        ensures small { unsigned_abs result ≤ 2 ^ 31 }
    {
        if self.group & line_up == self.group {
            i64::from(self.coefficient)
        } else {
            0
        }
    }
}

// What the terms are worth together. An inner call: it asks for fewer terms than could pass the sum's range.
pub fn worth(terms: &[Term], line_up: u32) -> i64
    requires { length terms.now < 2 ^ 32 }
    ensures { result ≡ worth terms.now line_up }
{
    // A loop, since of the sum of a chain the proof did not learn the bound.
    let mut sum = 0;
    for term in terms {
        sum += term.worth(line_up);
    }
    sum
}
