// Damage to files.
use crate::numbers::Generator;
use std::alloc::{AllocError, Global};

// What is done to a file.
#[derive(Clone, Copy)]
pub enum Damage {
    Nothing,
    // Bytes are changed.
    Change,
    // The file is cut.
    Cut,
    // A byte or a record is put in.
    PutIn,
    // Two records are exchanged, or one is put in another's place, or one is left out.
    Exchange,
}

impl Damage {
    // What is then said of the file.
    pub fn word(self) -> &'static str {
        match self {
            Damage::Nothing => "as made",
            Damage::Change => "with bytes changed",
            Damage::Cut => "cut short",
            Damage::PutIn => "with more put in",
            Damage::Exchange => "with records exchanged",
        }
    }
}

impl Generator {
    // A place of a list of this length, 0 where that is 0.
    fn place(&mut self, length: usize) -> usize {
        self.below(u32::try_from(length).unwrap_or(0)) as usize
    }

    // A length below this one, half of the time so that just the last record is cut.
    fn cut(&mut self, length: usize) -> usize {
        if self.below(2) == 0 {
            self.place(length)
        } else {
            length.saturating_sub(self.place(8)).saturating_sub(1)
        }
    }

    // A byte, half of the time one that may be a kind.
    fn byte(&mut self) -> u8 {
        let count = if self.below(2) == 0 { 6 } else { 256 };
        u8::try_from(self.below(count)).unwrap_or(0)
    }
}

// The bytes of the records in a row.
fn joined(heap: Global, records: &[Vec<u8>]) -> Result<Vec<u8>, AllocError> {
    let mut bytes = Vec::new(heap);
    for record in records {
        bytes.extend_from_slice(record)?;
    }
    Ok(bytes)
}

// Changes one or two bytes.
fn change(generator: &mut Generator, bytes: &mut Vec<u8>) {
    for _ in 0..=generator.below(2) {
        let place = generator.place(bytes.len());
        if let Some(byte) = bytes.get_mut(place) {
            *byte = generator.byte();
        }
    }
}

// Puts a byte in somewhere, or behind all.
fn with_byte(heap: Global, generator: &mut Generator, bytes: &[u8]) -> Result<Vec<u8>, AllocError> {
    let place = generator.place(bytes.len().wrapping_add(1));
    let mut more = bytes.get(..place).unwrap_or(&[]).to_vec(heap)?;
    more.push(generator.byte())?;
    more.extend_from_slice(bytes.get(place..).unwrap_or(&[]))?;
    Ok(more)
}

// Puts a record of another file in between two records, or before or behind all.
fn with_record(
    heap: Global,
    generator: &mut Generator,
    records: &[Vec<u8>],
) -> Result<Vec<u8>, AllocError> {
    let others = generator.plain_sheet(heap)?.records(heap)?;
    let record = others.get(generator.place(others.len()));
    let border = generator.place(records.len().wrapping_add(1));
    let mut bytes = joined(heap, records.get(..border).unwrap_or(&[]))?;
    bytes.extend_from_slice(record.map_or(&[], |record| record.as_slice()))?;
    for record in records.iter().skip(border) {
        bytes.extend_from_slice(record)?;
    }
    Ok(bytes)
}

// The records at the places that are told, one after the other.
fn chosen(heap: Global, records: &[Vec<u8>], places: &[usize]) -> Result<Vec<u8>, AllocError> {
    let mut bytes = Vec::new(heap);
    for place in places {
        if let Some(record) = records.get(*place) {
            bytes.extend_from_slice(record)?;
        }
    }
    Ok(bytes)
}

// Exchanges two records, or puts one in another's place, or leaves one out.
fn exchange(
    heap: Global,
    generator: &mut Generator,
    records: &[Vec<u8>],
) -> Result<Vec<u8>, AllocError> {
    let mut places: Vec<usize> = (0..records.len()).collect(heap)?;
    let one = generator.place(records.len());
    let other = generator.place(records.len());
    let way = generator.below(3);
    if let Some(place) = places.get_mut(one) {
        *place = if way == 0 { records.len() } else { other };
    }
    if way == 1
        && let Some(place) = places.get_mut(other)
    {
        *place = one;
    }
    chosen(heap, records, &places)
}

// The file of these records, damaged.
pub fn damaged(
    heap: Global,
    generator: &mut Generator,
    records: &[Vec<u8>],
    damage: Damage,
) -> Result<Vec<u8>, AllocError> {
    let mut bytes = joined(heap, records)?;
    match damage {
        Damage::Nothing => Ok(bytes),
        Damage::Change => {
            change(generator, &mut bytes);
            Ok(bytes)
        }
        Damage::Cut => {
            bytes.truncate(generator.cut(bytes.len()));
            Ok(bytes)
        }
        Damage::PutIn if generator.below(2) == 0 => with_byte(heap, generator, &bytes),
        Damage::PutIn => with_record(heap, generator, records),
        Damage::Exchange => exchange(heap, generator, records),
    }
}
