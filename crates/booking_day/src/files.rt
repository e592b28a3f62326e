// The day's sheet as a file: written to bytes and read back.
use crate::file_texts::{ReadLine, WriteLine};
use lineup::{Draft, Locked, MOST_FILE, RULE_NUMBERS, read, write};
use std::io;

// Both sheets hold the same spots, rules and prices.
fn same_contents(sheet: &Locked, other: &Locked) -> bool {
    sheet.houses() == other.houses()
        && (0..RULE_NUMBERS as u8).all(|number| sheet.rule(number) == other.rule(number))
        && sheet.prices() == other.prices()
}

// Writes the sheet to a space, reads it into a new draft, and shows what came back.
pub fn show_file(rt: &impl Print, sheet: &Locked) -> io::Result<()> {
    // A space of `MOST_FILE` is never short.
    let mut space = [0; MOST_FILE];
    let written = write(sheet, &mut space);
    rt.println(WriteLine(written))?;
    let Some(bytes) = space.get(..written.unwrap_or(0)) else {
        return Ok(());
    };
    let mut draft = Draft::new();
    let answer = read(&mut draft, bytes);
    let back = draft.lock();
    rt.println(ReadLine {
        answer,
        same: same_contents(sheet, &back),
        before: sheet.unused_places(),
        after: back.unused_places(),
    })
}
