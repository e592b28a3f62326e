// What a locked sheet is asked, and what it answers: codes, line-ups, the best one, and whether the late spot fits.
ghost use Rattle.std.specs.Prelude.{◌≤◌, length};
ghost use Rattle.elimination.specs.Plans.{plan_links};
ghost use Rattle.elimination.specs.Links.{need};

use crate::day::{CAR_SPOT, LATE_SPOT, LENGTH, PRESENT};
use crate::line_up_texts::{
    CellsLine, CellsOrder, CodeLine, InstanceLine, Length, LineUp, NeedLine, NextLine, PinLine,
    PresentLine, SolveLine, TrialLine,
};
use crate::rating_texts::{BestLine, CountLine, TakingsLine};
use lineup::{Card, Code, Locked, MOST_CELLS, Outcome, Pin, Plan, instance, next, takings, trial};
use std::io;

// No more line-ups than this are shown one after the other.
const MOST_SHOWN: u32 = 32;

// The rule of a sheet that says how long the break is.
fn length(sheet: &Locked) -> Option<Length<'_>> {
    // So it has few terms.
    sheet.keeps();
    let rule = sheet.rule(LENGTH)?;
    Some(Length { rule })
}

// Shows what each code means.
fn show_meanings(rt: &impl Print) -> io::Result<()> {
    for code in [Code::Out, Code::In, Code::Free, Code::Dead] {
        rt.println(CodeLine(code))?;
    }
    Ok(())
}

// Shows the codes of each spot's cells.
fn show_cells(rt: &impl Print, plan: &Plan, table: &[u8]) -> io::Result<()>
    requires { need (plan_links plan.now) ≤ length table.now }
{
    rt.println(CellsOrder)?;
    let mut rest = table;
    for (spot, &links) in plan.link_sets().iter().enumerate() {
        let (cells, higher) = rest.split_at(1 << links.count_ones());
        rt.println(CellsLine { spot, links, cells })?;
        rest = higher;
    }
    Ok(())
}

// Shows the line-ups that a table lists, one after the other.
fn show_line_ups(rt: &impl Print, length: Length<'_>, plan: &Plan, table: &[u8]) -> io::Result<()> {
    let mut after = None;
    for _ in 0..MOST_SHOWN {
        let answer = next(plan, table, after);
        rt.println(NextLine {
            length,
            after,
            answer,
        })?;
        let Ok(Some(line_up)) = answer else {
            return Ok(());
        };
        after = Some(line_up);
    }
    Ok(())
}

// Asks whether the late spot fits, and shows two line-ups that hold it: the first one, and the one that keeps what it can of the present one.
fn show_trial(
    rt: &impl Print,
    length: Length<'_>,
    sheet: &Locked,
    card: &mut Card,
    plan: &Plan,
    table: &mut [u8],
) -> io::Result<()> {
    let answer = trial(sheet, card, LATE_SPOT, table);
    rt.println(TrialLine {
        spot: LATE_SPOT,
        answer,
    })?;
    if answer != Ok(true) {
        return Ok(());
    }
    // The table now has the late spot pinned in. The link sets are those of the sheet, whatever is pinned.
    rt.println(NextLine {
        length,
        after: None,
        answer: next(plan, table, None),
    })?;
    rt.println(InstanceLine {
        length,
        switches: PRESENT,
        answer: instance(plan, table, PRESENT),
    })
}

// Asks whether the late spot fits where the present line-up takes the whole break, and then the same with the car pinned in.
fn show_late_spot(
    rt: &impl Print,
    length: Length<'_>,
    sheet: &Locked,
    plan: &Plan,
    table: &mut [u8],
) -> io::Result<()> {
    rt.println(PresentLine(LineUp {
        length,
        line_up: PRESENT,
    }))?;
    let mut card = Card::new();
    show_trial(rt, length, sheet, &mut card, plan, table)?;
    let answer = card.pin(CAR_SPOT, Pin::In);
    rt.println(PinLine {
        spot: CAR_SPOT,
        answer,
    })?;
    show_trial(rt, length, sheet, &mut card, plan, table)
}

// Shows how many line-ups are lawful, what the best of them takes, and which it is.
fn show_ratings(
    rt: &impl Print,
    length: Length<'_>,
    day: &Outcome<u64, u64>,
    choices: &mut [u8],
    figures: &mut [u64],
) -> io::Result<()> {
    rt.println(CountLine(day.rate))?;
    rt.println(TakingsLine(takings(&day.sheet, &day.card, choices, figures)))?;
    rt.println(BestLine {
        length,
        answer: day.best,
    })
}

// Shows what was asked of the day's sheet: the codes, the lawful line-ups, the line-up of the present one as switches, how many there are, the
// best one, and whether the late spot fits.
pub fn show_outcome(
    rt: &impl Print,
    day: &Outcome<u64, u64>,
    choices: &mut [u8; MOST_CELLS],
    figures: &mut [u64],
) -> io::Result<()> {
    rt.println(SolveLine(day.solved))?;
    let (Ok(()), Some(length)) = (day.solved, length(&day.sheet)) else {
        return Ok(());
    };
    rt.println(NeedLine(day.plan.need()))?;
    show_meanings(rt)?;
    show_cells(rt, &day.plan, choices)?;
    show_line_ups(rt, length, &day.plan, choices)?;
    rt.println(InstanceLine {
        length,
        switches: PRESENT,
        answer: day.instance,
    })?;
    show_ratings(rt, length, day, choices, figures)?;
    show_late_spot(rt, length, &day.sheet, &day.plan, choices)
}
