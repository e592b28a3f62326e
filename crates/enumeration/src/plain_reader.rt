// A file read plainly, section by section: spots, rules with their terms, prices, and nothing behind. By functions of its own, on purpose, and
// nothing that the part computes.
use crate::plain_rows::{price_fault, rule_fault, spot_fault};
use crate::plain_sheets::{PlainRule, PlainSheet, Product};
use std::alloc::{AllocError, AllocFailed, Global};

// The place of the record that is to blame, and the number of the refusal, 0 for a flaw.
#[derive(Clone, Copy, PartialEq)]
pub struct Fault {
    pub place: usize,
    pub number: u8,
}

// Why reading ends early.
#[derive(Drop)]
enum Stop {
    Fault(Fault),
    Memory(AllocError),
}

impl<T: Drop> From<AllocFailed<T>> for Stop {
    fn from(error: AllocFailed<T>) -> Self {
        Stop::Memory(AllocError::from(error))
    }
}

// Four bytes as a number, the highest first.
fn number_of(bytes: [u8; 4]) -> u64 {
    bytes.iter().fold(0u64, |number, byte| {
        number.wrapping_mul(256).wrapping_add(u64::from(*byte))
    })
}

fn unsigned_of(bytes: [u8; 4]) -> u32 {
    u32::try_from(number_of(bytes)).unwrap_or(0)
}

// The same where the upper half of the numbers stands for the negative ones.
fn signed_of(bytes: [u8; 4]) -> i32 {
    let number = i64::try_from(number_of(bytes)).unwrap_or(0);
    let signed = if number >= 1 << 31 {
        number.wrapping_sub(1 << 32)
    } else {
        number
    };
    i32::try_from(signed).unwrap_or(0)
}

// What is left of a file, where it begins, and the sheet of what came before.
#[derive(Drop)]
struct Reader<'a> {
    rest: &'a [u8],
    place: usize,
    sheet: PlainSheet,
}

impl Reader<'_> {
    fn stop<T>(&self, number: u8) -> Result<T, Stop> {
        Err(Stop::Fault(Fault {
            place: self.place,
            number,
        }))
    }

    // A record of this kind comes next, whole or cut.
    fn sees(&self, kind: u8) -> bool {
        self.rest.first() == Some(&kind)
    }

    fn pass(&mut self, length: usize) {
        self.rest = self.rest.get(length..).unwrap_or(&[]);
        self.place = self.place.wrapping_add(length);
    }

    // The four bytes from a place of the next record on, which is cut where they are not all there.
    fn four(&self, from: usize) -> Result<[u8; 4], Stop> {
        let behind = self.rest.get(from..).unwrap_or(&[]);
        match behind {
            [a, b, c, d, ..] => Ok([*a, *b, *c, *d]),
            _ => self.stop(0),
        }
    }

    // The number and the group of a term or a price.
    fn product(&self) -> Result<Product, Stop> {
        let group = self.four(5)?;
        Ok((signed_of(self.four(1)?), unsigned_of(group)))
    }

    fn spot(&mut self) -> Result<(), Stop> {
        let house = unsigned_of(self.four(1)?);
        if let Some(number) = spot_fault(&self.sheet, house) {
            return self.stop(number);
        }
        self.sheet.houses.push(house)?;
        self.pass(5);
        Ok(())
    }

    // The terms that come next.
    fn terms(&mut self, heap: Global) -> Result<Vec<Product>, Stop> {
        let mut terms = Vec::new(heap);
        for _ in 0..self.rest.len() {
            if !self.sees(3) {
                break;
            }
            let term = self.product()?;
            if terms.len() == 64 {
                return self.stop(6);
            }
            terms.push(term)?;
            self.pass(9);
        }
        Ok(terms)
    }

    // The rule before its terms. Its number is above that of the rule before.
    fn head(&self, heap: Global) -> Result<PlainRule, Stop> {
        let bound = signed_of(self.four(3)?);
        let [_, number, relation, ..] = self.rest else {
            return self.stop(0);
        };
        if self.sheet.rules.iter().any(|rule| rule.number >= *number) {
            return self.stop(0);
        }
        Ok(PlainRule {
            number: *number,
            relation: *relation,
            bound,
            terms: Vec::new(heap),
        })
    }

    fn rule(&mut self, heap: Global) -> Result<(), Stop> {
        let place = self.place;
        let mut rule = self.head(heap)?;
        self.pass(7);
        rule.terms = self.terms(heap)?;
        if let Some(number) = rule_fault(&self.sheet, &rule) {
            return Err(Stop::Fault(Fault { place, number }));
        }
        self.sheet.rules.push(rule)?;
        Ok(())
    }

    fn price(&mut self) -> Result<(), Stop> {
        let price = self.product()?;
        if let Some(number) = price_fault(&self.sheet, price) {
            return self.stop(number);
        }
        self.sheet.prices.push(price)?;
        self.pass(9);
        Ok(())
    }

    // Reads the three sections. Each record takes at least a byte.
    fn sections(&mut self, heap: Global) -> Result<(), Stop> {
        let most = self.rest.len();
        for _ in 0..most {
            if self.sees(1) {
                self.spot()?;
            }
        }
        for _ in 0..most {
            if self.sees(2) {
                self.rule(heap)?;
            }
        }
        for _ in 0..most {
            if self.sees(4) {
                self.price()?;
            }
        }
        if self.rest.is_empty() {
            Ok(())
        } else {
            self.stop(0)
        }
    }
}

// The sheet that a file tells, or the first fault.
pub fn read_plainly(heap: Global, bytes: &[u8]) -> Result<Result<PlainSheet, Fault>, AllocError> {
    let mut reader = Reader {
        rest: bytes,
        place: 0,
        sheet: PlainSheet::new(heap),
    };
    match reader.sections(heap) {
        Ok(()) => Ok(Ok(reader.sheet)),
        Err(Stop::Fault(fault)) => Ok(Err(fault)),
        Err(Stop::Memory(error)) => Err(error),
    }
}
