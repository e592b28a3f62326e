// Random tables of one length, converted there and back and compared with plain enumeration.
use crate::numbers::{Generator, Spread};
use crate::sums::{ToTerms, ToValues, Way, is_in_range};
use lineup::Refusal;
use std::alloc::{AllocError, Global};
use std::fmt;

const PAIRS_OF_TABLES: usize = 4;

// How one of the two conversions went for some tables.
#[derive(Default, Drop)]
pub struct Count {
    // Tables that became what enumeration gives.
    converted: u32,
    // Of those, the ones that the other conversion turned back.
    restored: u32,
    // Of those, the ones that the other conversion refused and left as they were, since an entry is out of range.
    out_of_range: u32,
}

impl Count {
    // Converts a table, and then back. Whatever goes wrong is not counted.
    fn add<W: Way>(&mut self, heap: Global, table: &[i64]) -> Result<(), AllocError> {
        let expected: Vec<i64> = (0..table.len())
            .map(|group| W::entry_at(table, group))
            .collect(heap)?;
        let mut converted = table.to_vec(heap)?;
        if W::convert(&mut converted).is_err() || converted != expected {
            return Ok(());
        }
        self.converted = self.converted.wrapping_add(1);
        let answer = W::back(&mut converted);
        if is_in_range(&expected) {
            if answer == Ok(()) && converted.as_slice() == table {
                self.restored = self.restored.wrapping_add(1);
            }
        } else if answer == Err(Refusal::OutOfRange) && converted == expected {
            self.out_of_range = self.out_of_range.wrapping_add(1);
        }
        Ok(())
    }
}

impl fmt::Display for Count {
    fn fmt<W: fmt::Write>(&self, f: &mut fmt::Formatter<W>) -> fmt::Result {
        let converted = self.converted;
        let restored = self.restored;
        let out_of_range = self.out_of_range;
        write!(
            f,
            "{converted} agree, {restored} and back, {out_of_range} out of range"
        )
    }
}

// How both conversions went for tables of one length.
#[derive(Default, Drop)]
pub struct Counts {
    pub to_values: Count,
    pub to_terms: Count,
}

fn random_table(
    heap: Global,
    generator: &mut Generator,
    spread: Spread,
    length: usize,
) -> Result<Vec<i64>, AllocError> {
    (0..length).map(|_| generator.entry(spread)).collect(heap)
}

// Converts random tables of this length, half of them of small entries.
pub fn count_tables(
    heap: Global,
    generator: &mut Generator,
    length: usize,
) -> Result<Counts, AllocError> {
    let mut counts = Counts::default();
    for _ in 0..PAIRS_OF_TABLES {
        for spread in [Spread::Whole, Spread::Small] {
            let table = random_table(heap, generator, spread, length)?;
            counts.to_values.add::<ToValues>(heap, &table)?;
            counts.to_terms.add::<ToTerms>(heap, &table)?;
        }
    }
    Ok(counts)
}
