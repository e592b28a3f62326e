// Files that are read and written by the part, compared with the plain reader.
use crate::damage::{Damage, damaged};
use crate::numbers::Generator;
use crate::plain_reader::{Fault, read_plainly};
use crate::plain_sheets::{PlainRule, PlainSheet, Product};
use crate::tallies::Tally;
use lineup::{
    Draft, FileFault, FileRefusal, Locked, MOST_FILE, Price, Refusal, Relation, Rule, Term, read,
    write,
};
use std::alloc::{AllocError, Global};
use std::fmt;
use std::mem::replace;

// What the places of a space hold before it is written to.
const UNWRITTEN: u8 = 99;

// How many places the longest space has beyond those of a file.
const SPARE: usize = 3;

// The number of the part's fault, told anew. Above 6 stand those that no file meets.
fn number_of(fault: FileFault) -> u8 {
    match fault {
        FileFault::Flaw => 0,
        FileFault::Cause(Refusal::OffSheet) => 1,
        FileFault::Cause(Refusal::Full) => 2,
        FileFault::Cause(Refusal::Twice) => 3,
        FileFault::Cause(Refusal::Blank) => 4,
        FileFault::Cause(Refusal::OutOfRange) => 5,
        FileFault::Cause(Refusal::Crowded) => 6,
        FileFault::Cause(_) => 7,
    }
}

fn fault_of(refusal: FileRefusal) -> Fault {
    let FileRefusal::BadFile { place, fault } = refusal;
    Fault {
        place,
        number: number_of(fault),
    }
}

fn relation_number(relation: Relation) -> u8 {
    match relation {
        Relation::Equal => 0,
        Relation::AtMost => 1,
        Relation::AtLeast => 2,
    }
}

fn are_terms(terms: &[Term], plain: &[Product]) -> bool {
    terms.len() == plain.len()
        && terms.iter().zip(plain).all(|(term, product)| (term.coefficient, term.group) == *product)
}

fn are_prices(prices: &[Price], plain: &[Product]) -> bool {
    prices.len() == plain.len()
        && prices
            .iter()
            .zip(plain)
            .all(|(price, product)| (price.amount, price.group) == *product)
}

fn is_rule(rule: Rule<'_>, plain: &PlainRule) -> bool {
    relation_number(rule.relation) == plain.relation
        && rule.bound == plain.bound
        && are_terms(rule.terms, &plain.terms)
}

// The same rules are live.
fn are_rules(sheet: &Locked, plain: &[PlainRule]) -> bool {
    (0..=u8::MAX).all(|number| {
        let expected = plain.iter().find(|rule| rule.number == number);
        match (sheet.rule(number), expected) {
            (Some(rule), Some(expected)) => is_rule(rule, expected),
            (None, None) => true,
            _ => false,
        }
    })
}

// The sheet holds what the plain one does, and uses as many places as that has terms.
fn holds(sheet: &Locked, plain: &PlainSheet) -> bool {
    sheet.houses() == plain.houses.as_slice()
        && are_rules(sheet, &plain.rules)
        && are_prices(sheet.prices(), &plain.prices)
        && sheet.unused_places() == 512usize.wrapping_sub(plain.term_count())
}

// The sheet's file is these bytes, as far as a space goes: beyond them nothing is written, and where they do not fit nothing at all.
fn is_written_to(sheet: &Locked, bytes: &[u8], space: &mut [u8]) -> bool {
    let answer = write(sheet, space);
    let length = if space.len() < bytes.len() {
        0
    } else {
        bytes.len()
    };
    let expected = if length == bytes.len() {
        Ok(length)
    } else {
        Err(Refusal::Short)
    };
    answer == expected
        && space.get(..length) == bytes.get(..length)
        && space
            .iter()
            .skip(length)
            .copied()
            .all(|byte| byte == UNWRITTEN)
}

// The same for a space that is one byte short, one that is just long enough, and a longer one.
fn is_written_as(sheet: &Locked, bytes: &[u8]) -> bool {
    let length = bytes.len();
    let rooms = [length.saturating_sub(1), length, length.wrapping_add(SPARE)];
    rooms.iter().all(|room| {
        let mut space = [UNWRITTEN; MOST_FILE + SPARE];
        match space.get_mut(..*room) {
            Some(space) => is_written_to(sheet, bytes, space),
            None => false,
        }
    })
}

// How the reading of some files went.
#[derive(Default, Drop)]
pub struct Comparison {
    accepted: u32,
    // How many were refused by a flaw, and by each cause from 1 to 6.
    refused: [u32; 7],
    // Whether a file is accepted, or which fault is told at which place.
    answers: Tally,
    // What the draft then holds.
    contents: Tally,
    // The bytes that the sheet of an accepted file is written as.
    written: Tally,
}

impl Comparison {
    fn add_answer(&mut self, answer: Option<Fault>, expected: Option<Fault>) {
        self.answers.add(answer == expected);
        match expected {
            None => self.accepted = self.accepted.wrapping_add(1),
            Some(fault) => {
                if let Some(count) = self.refused.get_mut(usize::from(fault.number)) {
                    *count = count.wrapping_add(1);
                }
            }
        }
    }
}

// A draft that files are read into, and what it should hold.
#[derive(Drop)]
struct Desk {
    draft: Draft,
    held: PlainSheet,
}

impl Desk {
    fn new(heap: Global) -> Self {
        Desk {
            draft: Draft::new(),
            held: PlainSheet::new(heap),
        }
    }

    // Locks the draft, looks at it and unlocks it again.
    fn look(&mut self, bytes: &[u8], comparison: &mut Comparison, accepted: bool) {
        let locked = replace(&mut self.draft, Draft::new()).lock();
        comparison.contents.add(holds(&locked, &self.held));
        if accepted {
            comparison.written.add(is_written_as(&locked, bytes));
        }
        self.draft = locked.unlock();
    }

    // Reads a file.
    fn add(
        &mut self,
        heap: Global,
        bytes: &[u8],
        comparison: &mut Comparison,
    ) -> Result<(), AllocError> {
        let answer = read(&mut self.draft, bytes)
            .err()
            .map(|refusal| fault_of(refusal));
        let expected = match read_plainly(heap, bytes)? {
            Ok(sheet) => {
                self.held = sheet;
                None
            }
            Err(fault) => Some(fault),
        };
        comparison.add_answer(answer, expected);
        self.look(bytes, comparison, expected.is_none());
        Ok(())
    }
}

// Reads so many random files that are damaged so.
pub fn compare(
    heap: Global,
    generator: &mut Generator,
    damage: Damage,
    count: u32,
) -> Result<Comparison, AllocError> {
    let mut desk = Desk::new(heap);
    let mut comparison = Comparison::default();
    for _ in 0..count {
        let records = generator.plain_sheet(heap)?.records(heap)?;
        let bytes = damaged(heap, generator, &records, damage)?;
        desk.add(heap, &bytes, &mut comparison)?;
    }
    Ok(comparison)
}

impl fmt::Display for Comparison {
    fn fmt<W: fmt::Write>(&self, f: &mut fmt::Formatter<W>) -> fmt::Result {
        let accepted = self.accepted;
        let [flaw, off_sheet, full, twice, blank, out_of_range, crowded] = self.refused;
        let answers = self.answers;
        let contents = self.contents;
        let written = self.written;
        write!(
            f,
            "{accepted} accepted, refused {flaw} flaw, {off_sheet} off sheet, "
        )?;
        write!(f, "{full} full, {twice} twice, {blank} blank, ")?;
        write!(f, "{out_of_range} out of range, {crowded} crowded; ")?;
        write!(
            f,
            "{answers} answers agree, {contents} contents, {written} written back"
        )
    }
}
