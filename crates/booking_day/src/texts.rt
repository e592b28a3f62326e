// How calls, answers and what stands in a sheet read.
ghost use Rattle.std.specs.Prelude.{◌≡◌, ◌<◌, Some, option_map};
ghost use Rattle.terms.specs.Groups.{holds};
ghost use Rattle.sheet.specs.History.{call, rule_seen};
ghost use Rattle.booking_day.specs.Texts.{group_text, worth_text, term_text, terms_text, relation_text, bounds_text};
ghost use Rattle.booking_day.specs.Texts.{price_text, call_text, refused_text, answer_text, line_text, spot_text, rule_text, unused_text};

use lineup::{Answer, Booking, Price, Refusal, Relation, Rule, Term};
use std::fmt;

// A group's spots by rising number, in braces.
#[derive(Clone, Copy)]
pub struct Group(pub u32);

impl Group {
    fn holds(self, spot: u32) -> bool
        requires { spot < 32 }
        ensures { result ≡ holds self.0 spot }
    {
        (self.0 >> spot) % 2 == 1
    }
}

impl fmt::Display for Group {
    ghost output = { λ group. Some (group_text group.0) };

    fn fmt<W: fmt::Write>(&self, f: &mut fmt::Formatter<W>) -> fmt::Result {
        f.write_str("{")?;
        // No `filter`: with a closure in a function that is generic over its writer, the proof of the loop did not close.
        let mut separator = "";
        for spot in 0..32 {
            if self.holds(spot) {
                write!(f, "{separator}{spot}")?;
                separator = " ";
            }
        }
        f.write_str("}")
    }
}

// What a group is worth.
#[derive(Clone, Copy)]
struct Worth(i32, Group);

impl fmt::Display for Worth {
    ghost output = { λ w. Some (worth_text w.0 w.1.0) };

    fn fmt<W: fmt::Write>(&self, f: &mut fmt::Formatter<W>) -> fmt::Result {
        let Worth(worth, group) = *self;
        write!(f, "{worth} {group}")
    }
}

// A term of a sum.
#[derive(Clone, Copy)]
struct Summand(Term);

impl fmt::Display for Summand {
    ghost output = { λ s. Some (term_text s.0) };

    fn fmt<W: fmt::Write>(&self, f: &mut fmt::Formatter<W>) -> fmt::Result {
        let Term { coefficient, group } = self.0;
        write!(f, "{}", Worth(coefficient, Group(group)))
    }
}

// Terms with a plus between each two.
#[derive(Clone, Copy)]
struct Sum<'a>(&'a [Term]);

impl fmt::Display for Sum<'_> {
    ghost output = { λ s. Some (terms_text s.0.now) };

    fn fmt<W: fmt::Write>(&self, f: &mut fmt::Formatter<W>) -> fmt::Result {
        let Some((&first, others)) = self.0.split_first() else {
            return Ok(());
        };
        write!(f, "{}", Summand(first))?;
        for &term in others {
            write!(f, " + {}", Summand(term))?;
        }
        Ok(())
    }
}

// A relation by its number, which is shown as it is where no relation has it.
#[derive(Clone, Copy)]
struct NumberedRelation(u8);

impl fmt::Display for NumberedRelation {
    ghost output = { λ r. Some (relation_text r.0) };

    fn fmt<W: fmt::Write>(&self, f: &mut fmt::Formatter<W>) -> fmt::Result {
        let number = self.0;
        match Relation::try_from(number) {
            Ok(relation) => write!(f, "{relation}"),
            Err(_) => write!(f, "relation {number}"),
        }
    }
}

// A rule, from its number on.
#[derive(Clone, Copy)]
struct Bounds<'a, R> {
    number: u8,
    relation: R,
    bound: i32,
    terms: &'a [Term],
}

impl<R: fmt::Display> fmt::Display for Bounds<'_, R> {
    ghost output = { λ b. option_map (λ relation. bounds_text b.number relation b.bound b.terms.now) (R.output b.relation) };

    fn fmt<W: fmt::Write>(&self, f: &mut fmt::Formatter<W>) -> fmt::Result {
        write!(f, "{} {} {}:", self.number, self.relation, self.bound)?;
        if self.terms.is_empty() {
            return Ok(());
        }
        write!(f, " {}", Sum(self.terms))
    }
}

// A price.
#[derive(Clone, Copy)]
pub struct PriceLine(pub Price);

impl fmt::Display for PriceLine {
    ghost output = { λ p. Some (price_text p.0.amount p.0.group) };

    fn fmt<W: fmt::Write>(&self, f: &mut fmt::Formatter<W>) -> fmt::Result {
        let Price { amount, group } = self.0;
        write!(f, "price {}", Worth(amount, Group(group)))
    }
}

// A call.
#[derive(Clone, Copy)]
struct Call<'a>(Booking<'a>);

impl fmt::Display for Call<'_> {
    ghost output = { λ c. Some (call_text (call c.0)) };

    fn fmt<W: fmt::Write>(&self, f: &mut fmt::Formatter<W>) -> fmt::Result {
        match self.0 {
            Booking::Declare { house } => write!(f, "declare {house}"),
            Booking::Post {
                number,
                relation,
                bound,
                terms,
            } => {
                let bounds = Bounds {
                    number,
                    relation: NumberedRelation(relation),
                    bound,
                    terms,
                };
                write!(f, "post {bounds}")
            }
            Booking::Price { amount, group } => write!(f, "{}", PriceLine(Price { amount, group })),
            Booking::Withdraw { number } => write!(f, "withdraw {number}"),
            Booking::Lock => f.write_str("lock"),
            Booking::Unlock => f.write_str("unlock"),
        }
    }
}

// A refusal with its number.
#[derive(Clone, Copy)]
pub struct Refused(pub Refusal);

impl fmt::Display for Refused {
    ghost output = { λ r. Some (refused_text r.0) };

    fn fmt<W: fmt::Write>(&self, f: &mut fmt::Formatter<W>) -> fmt::Result {
        let refusal = self.0;
        write!(f, "refused {} {refusal}", refusal.number())
    }
}

// An answer.
#[derive(Clone, Copy)]
pub struct Reply(pub Answer);

impl fmt::Display for Reply {
    ghost output = { λ r. Some (answer_text r.0) };

    fn fmt<W: fmt::Write>(&self, f: &mut fmt::Formatter<W>) -> fmt::Result {
        match self.0 {
            Answer::Spot(spot) => write!(f, "spot {spot}"),
            Answer::Done => f.write_str("done"),
            Answer::Refused(refusal) => write!(f, "{}", Refused(refusal)),
            Answer::PassedOver => f.write_str("passed over"),
        }
    }
}

// A call with its answer.
#[derive(Clone, Copy)]
pub struct Line<'a> {
    pub booking: Booking<'a>,
    pub answer: Answer,
}

impl fmt::Display for Line<'_> {
    ghost output = { λ l. Some (line_text (call l.booking) l.answer) };

    fn fmt<W: fmt::Write>(&self, f: &mut fmt::Formatter<W>) -> fmt::Result {
        write!(f, "{} -> {}", Call(self.booking), Reply(self.answer))
    }
}

// A spot with its house number.
#[derive(Clone, Copy)]
pub struct SpotLine {
    pub spot: usize,
    pub house: u32,
}

impl fmt::Display for SpotLine {
    ghost output = { λ s. Some (spot_text s.spot s.house) };

    fn fmt<W: fmt::Write>(&self, f: &mut fmt::Formatter<W>) -> fmt::Result {
        write!(f, "spot {} house {}", self.spot, self.house)
    }
}

// A live rule with its number.
#[derive(Clone, Copy)]
pub struct RuleLine<'a> {
    pub number: u8,
    pub rule: Rule<'a>,
}

impl fmt::Display for RuleLine<'_> {
    ghost output = { λ r. Some (rule_text r.number (rule_seen r.rule)) };

    fn fmt<W: fmt::Write>(&self, f: &mut fmt::Formatter<W>) -> fmt::Result {
        let bounds = Bounds {
            number: self.number,
            relation: self.rule.relation,
            bound: self.rule.bound,
            terms: self.rule.terms,
        };
        write!(f, "rule {bounds}")
    }
}

// How many term places are unused.
#[derive(Clone, Copy)]
pub struct UnusedPlaces(pub usize);

impl fmt::Display for UnusedPlaces {
    ghost output = { λ u. Some (unused_text u.0) };

    fn fmt<W: fmt::Write>(&self, f: &mut fmt::Formatter<W>) -> fmt::Result {
        write!(f, "unused places {}", self.0)
    }
}
