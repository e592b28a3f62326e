// Books a break from nothing, and shows what came of it, what its file holds, which line-ups are lawful, and which of them is best.
#![tactic(auto)]

mod day;
mod file_texts;
mod files;
mod line_up_texts;
mod line_ups;
mod rating_texts;
mod texts;

use day::{DAY, PRESENT};
use lineup::{
    Answer, Booking, Count, Histories, Locked, MOST_CELLS, RULE_NUMBERS, Takings, replay_and_ask,
};
use std::io;
use texts::{Line, PriceLine, RuleLine, SpotLine, UnusedPlaces};

// Shows each call with its answer.
fn show_calls(rt: &impl Print, history: &[Booking<'_>], answers: &[Answer]) -> io::Result<()> {
    for (&booking, &answer) in history.iter().zip(answers) {
        rt.println(Line { booking, answer })?;
    }
    Ok(())
}

// Shows what stands in a sheet: spots, live rules by rising number, prices in list order, and how many term places are unused.
fn show_contents(rt: &impl Print, sheet: &Locked) -> io::Result<()> {
    for (spot, &house) in sheet.houses().iter().enumerate() {
        rt.println(SpotLine { spot, house })?;
    }
    for number in 0..RULE_NUMBERS as u8 {
        if let Some(rule) = sheet.rule(number) {
            rt.println(RuleLine { number, rule })?;
        }
    }
    for &price in sheet.prices() {
        rt.println(PriceLine(price))?;
    }
    rt.println(UnusedPlaces(sheet.unused_places()))
}

// Makes the calls of the day on a new sheet, writes it to a file and reads it back, asks what line-ups it has and what they take, and shows all of
// it.
fn show_day(rt: &impl Print) -> io::Result<()> {
    let histories = Histories {
        bookings: DAY,
        pinnings: &[],
    };
    let mut answers = [Answer::PassedOver; DAY.len()];
    // Tables of `MOST_CELLS` are never short.
    let mut choices = [0; MOST_CELLS];
    let mut counts = [0; MOST_CELLS];
    let mut figures = [0; MOST_CELLS];
    let day = replay_and_ask(
        histories,
        &mut answers,
        &mut [],
        PRESENT,
        &Count,
        &Takings,
        &mut choices,
        &mut counts,
        &mut figures,
    );
    show_calls(rt, DAY, &answers)?;
    show_contents(rt, &day.sheet)?;
    files::show_file(rt, &day.sheet)?;
    line_ups::show_outcome(rt, &day, &mut choices, &mut figures)
}

fn main(rt: HostRuntime) -> io::Result<()> {
    show_day(&rt)
}
