// Compares the part with plain enumeration: the conversions of tables, over random tables and over the rules of a sheet, and the answers about
// lawful line-ups, their figures and the best of them, over random sheets with every card; and the reading and writing of files, sound and damaged.
#![tactic(auto)]

mod bookings;
mod cards;
mod damage;
mod files;
mod lawful;
mod lengths;
mod links;
mod numbers;
mod plain_reader;
mod plain_rows;
mod plain_sheets;
mod random_files;
mod rated;
mod ratings;
mod rules;
mod sheets;
mod sums;
mod tallies;

use damage::Damage;
use lineup::{MOST_ENTRIES, RULE_NUMBERS};
use numbers::Generator;
use sheets::Size;
use std::io;

const LENGTHS: [usize; 11] = [1, 2, 4, 8, 16, 32, 64, 128, 256, 512, MOST_ENTRIES];

// Sizes of sheets, each written as its spots, rules and prices. A macro, since a constant may not call a function.
macro_rules! sizes {
    ($($spots:literal $rules:literal $prices:literal),*) => {
        [$(Size { spots: $spots, rules: $rules, prices: $prices }),*]
    };
}

// How many spots each random sheet has, and how many rules and prices are tried on it. Where there is no rule the prices alone join spots.
const SIZES: [Size; 15] = sizes![
    1 1 0,
    2 2 1,
    3 2 0,
    3 3 2,
    4 2 2,
    4 4 0,
    5 3 3,
    5 6 1,
    5 0 4,
    6 2 3,
    6 4 2,
    6 6 0,
    6 0 6,
    5 1 7,
    6 2 9
];

// What is done to files, and how many of them are read.
const DAMAGES: [(Damage, u32); 5] = [
    (Damage::Nothing, 1_000),
    (Damage::Change, 1_000),
    (Damage::Cut, 500),
    (Damage::PutIn, 500),
    (Damage::Exchange, 1_000),
];

const SEED: u64 = 2_026;

// Shows, for each length of a table, how many conversions agree with enumeration.
fn show_tables(rt: &HostRuntime) -> io::Result<()> {
    let mut generator = Generator::new(SEED);
    for length in LENGTHS {
        let counts = lengths::count_tables(rt.alloc(), &mut generator, length)?;
        let to_values = counts.to_values;
        let to_terms = counts.to_terms;
        println!(rt; "tables of length {length}: to values {to_values}; to terms {to_terms}")?;
    }
    Ok(())
}

// Shows, for each live rule, how many entries of its table of values are its sums.
fn show_rules(rt: &HostRuntime) -> io::Result<()> {
    let sheet = bookings::booked_sheet(rt.alloc())?;
    for number in 0..RULE_NUMBERS as u8 {
        if let Some(rule) = sheet.rule(number) {
            let comparison = rules::compare(rt.alloc(), rule.terms)?;
            println!(rt; "rule {number} {comparison}")?;
        }
    }
    Ok(())
}

// Shows, for each random sheet, how many answers agree with enumeration.
fn show_sheets(rt: &HostRuntime) -> io::Result<()> {
    let mut generator = Generator::new(SEED);
    for (i, &size) in SIZES.iter().enumerate() {
        let sheet = sheets::random_sheet(rt.alloc(), &mut generator, size)?;
        let spots = sheet.houses().len();
        let rules = lawful::live_rules(rt.alloc(), &sheet)?.len();
        let prices = sheet.prices().len();
        let comparison = cards::compare(rt.alloc(), &sheet)?;
        println!(rt; "sheet {i} (spots: {spots}, rules: {rules}, prices: {prices}): {comparison}")?;
        let rated = rated::compare(rt.alloc(), &sheet)?;
        println!(rt; "sheet {i} rated: {rated}")?;
    }
    Ok(())
}

// Shows, for each damage, how the reading of files went, and how much of it agrees.
fn show_files(rt: &HostRuntime) -> io::Result<()> {
    let mut generator = Generator::new(SEED);
    for (damage, count) in DAMAGES {
        let comparison = files::compare(rt.alloc(), &mut generator, damage, count)?;
        let word = damage.word();
        println!(rt; "files {word}: {comparison}")?;
    }
    Ok(())
}

fn main(rt: HostRuntime) -> io::Result<()> {
    show_tables(&rt)?;
    show_rules(&rt)?;
    show_sheets(&rt)?;
    show_files(&rt)
}
