// What the tests share: files made of records, all that a sheet holds, and files read and judged.
use lineup::*;
use std::alloc::{AllocError, Global};
use std::fmt::Display;
use std::mem::replace;
use std::process::Abort;
use std::test::Fail;

// A record of a file, or bytes that are no whole one. A relation is the byte that stands in the file.
#[derive(Clone, Copy)]
pub enum Record {
    Spot(u32),
    Rule(u8, u8, i32),
    Term(i32, u32),
    Price(i32, u32),
    Bytes(&'static [u8]),
}

impl Record {
    // Puts the record behind the bytes.
    pub fn put(self, bytes: &mut Vec<u8>) -> Result<(), AllocError> {
        match self {
            Record::Spot(house) => {
                bytes.push(1)?;
                bytes.extend_from_slice(&house.to_be_bytes())
            }
            Record::Rule(number, relation, bound) => {
                bytes.extend_from_slice(&[2, number, relation])?;
                bytes.extend_from_slice(&bound.to_be_bytes())
            }
            Record::Term(coefficient, group) => {
                bytes.push(3)?;
                bytes.extend_from_slice(&coefficient.to_be_bytes())?;
                bytes.extend_from_slice(&group.to_be_bytes())
            }
            Record::Price(amount, group) => {
                bytes.push(4)?;
                bytes.extend_from_slice(&amount.to_be_bytes())?;
                bytes.extend_from_slice(&group.to_be_bytes())
            }
            Record::Bytes(cut) => bytes.extend_from_slice(cut),
        }
    }
}

// Puts records behind the bytes.
pub fn put_all(bytes: &mut Vec<u8>, records: &[Record]) -> Result<(), AllocError> {
    for record in records {
        record.put(bytes)?;
    }
    Ok(())
}

// So many terms, whose groups are the numbers from 1 on.
pub fn put_terms(bytes: &mut Vec<u8>, count: u32) -> Result<(), AllocError> {
    for group in 1..=count {
        Record::Term(1, group).put(bytes)?;
    }
    Ok(())
}

// So many prices, whose groups are the numbers from 1 on.
pub fn put_prices(bytes: &mut Vec<u8>, count: u32) -> Result<(), AllocError> {
    for group in 1..=count {
        Record::Price(5, group).put(bytes)?;
    }
    Ok(())
}

// The file of so many spots, with house numbers from 1 on, and of the records behind them.
pub fn file_of(heap: Global, spots: u32, records: &[Record]) -> Result<Vec<u8>, AllocError> {
    let mut bytes = Vec::new(heap);
    for house in 1..=spots {
        Record::Spot(house).put(&mut bytes)?;
    }
    put_all(&mut bytes, records)?;
    Ok(bytes)
}

#[derive(PartialEq, Debug, Drop)]
pub struct HeldRule {
    pub number: u8,
    pub relation: Relation,
    pub bound: i32,
    pub terms: Vec<Term>,
}

// All that a sheet holds.
#[derive(PartialEq, Debug, Drop)]
pub struct Held {
    pub houses: Vec<u32>,
    pub rules: Vec<HeldRule>,
    pub prices: Vec<Price>,
    pub unused_places: usize,
}

fn held_rule(heap: Global, locked: &Locked, number: u8) -> Option<Result<HeldRule, AllocError>> {
    let rule = locked.rule(number)?;
    Some(
        rule.terms.to_vec(heap).map(|terms| HeldRule {
            number,
            relation: rule.relation,
            bound: rule.bound,
            terms,
        }),
    )
}

impl Held {
    pub fn of(heap: Global, locked: &Locked) -> Result<Self, AllocError> {
        let rules = (0..=u8::MAX).filter_map(|number| held_rule(heap, locked, number));
        Ok(Held {
            houses: locked.houses().to_vec(heap)?,
            rules: rules.try_collect(heap)?,
            prices: locked.prices().to_vec(heap)?,
            unused_places: locked.unused_places(),
        })
    }
}

// All that a draft holds: it is locked, looked at and unlocked again.
pub fn look(heap: Global, draft: &mut Draft) -> Result<Held, AllocError> {
    let locked = replace(draft, Draft::new()).lock();
    let held = Held::of(heap, &locked)?;
    *draft = locked.unlock();
    Ok(held)
}

// The fault told of a file at a place.
pub fn bad_file(place: usize, fault: FileFault) -> FileRefusal {
    FileRefusal::BadFile { place, fault }
}

// What the places of a space hold before it is written to.
pub const UNWRITTEN: u8 = 99;

// A draft with a spot, a rule, a price, and places that a withdrawn rule used up, so that a refused read would show if it touched any of these.
pub fn booked_draft(rt: &impl Abort) -> Draft {
    let mut draft = Draft::new();
    let one = [Term {
        coefficient: 7,
        group: 1,
    }];
    assert_eq!(rt; draft.declare(900), Ok(0));
    for number in [5, 6] {
        assert_eq!(rt; draft.post(number, 2, 3, &one), Ok(()));
    }
    assert_eq!(rt; draft.withdraw(5), Ok(()));
    assert_eq!(rt; draft.price(8, 1), Ok(()));
    draft
}

// Reads a file into a booked draft, which is refused so, and leaves the draft as it was.
pub fn assert_refused<R: Abort, N: Display + Drop>(
    rt: &R,
    heap: Global,
    bytes: &[u8],
    refusal: FileRefusal,
    note: N,
) -> Result<(), Fail> {
    let mut draft = booked_draft(rt);
    let before = look(heap, &mut draft)?;
    assert_eq!(rt; read(&mut draft, bytes), Err(refusal), "{note}");
    assert_eq!(rt; look(heap, &mut draft)?, before, "{note}");
    Ok(())
}

// Reads a file into a booked draft, which is accepted; the sheet that it makes is written as the same bytes, and as many places are used as it has
// terms.
pub fn assert_accepted<R: Abort, N: Display + Drop>(
    rt: &R,
    heap: Global,
    bytes: &[u8],
    note: N,
) -> Result<Locked, Fail> {
    let mut draft = booked_draft(rt);
    assert_eq!(rt; read(&mut draft, bytes), Ok(()), "{note}");
    let locked = draft.lock();
    let mut space = vec![in heap; UNWRITTEN; bytes.len()]?;
    assert_eq!(rt; write(&locked, &mut space), Ok(bytes.len()), "{note}");
    assert_eq!(rt; space.as_slice(), bytes, "{note}");
    Ok(locked)
}
