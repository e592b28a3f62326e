// The calls that read line-ups off a choice table.
ghost use Rattle.std.specs.Prelude.{◌≡◌, Some, IfOk};
ghost use Rattle.std.specs.Result.{result_err};
ghost use Rattle.terms.specs.Refusals.{uppermost, Uppermost};
ghost use Rattle.elimination.specs.Plans.{plan_links};
ghost use Rattle.solutions.specs.Answers.{instance_rows, instance_answer, next_rows, next_answer};
ghost use Rattle.solutions.specs.Runs.{RunsThrough, InOrder, HasFirst};
ghost use Rattle.solutions.specs.Solved.{SolvedSays, ListsLawful};

use crate::walks::Reading;
use elimination::Plan;
use terms::Refusal;
use terms::groups::is_beyond;

// The table as it is read for a line-up of the plan's spots.
fn read<'a>(plan: &'a Plan, table: &'a [u8], line_up: u32) -> Result<Reading<'a>, Refusal>
    ensures refusal { result_err result ≡ uppermost (instance_rows (plan_links plan.now) table.now line_up) }
    ensures reading { IfOk result (λ reading. (reading.link_sets.now ≡ plan_links plan.now) × (reading.cells.now ≡ table.now)) }
{
    let link_sets = plan.link_sets();
    if is_beyond(line_up, link_sets.len()) {
        return Err(Refusal::OffSheet);
    }
    if table.len() < plan.need() {
        return Err(Refusal::Short);
    }
    Ok(Reading {
        link_sets,
        cells: table,
    })
}

// The line-up that the switches choose. A spot with one open value takes it; with both open its switch decides; with none it stays out. With
// what an accepted solve leaves it is lawful, and a lawful line-up as switches comes back.
pub fn instance(plan: &Plan, table: &[u8], switches: u32) -> Result<u32, Refusal>
    ensures answer { result ≡ instance_answer (plan_links plan.now) table.now switches }
    ensures uppermost { Uppermost (instance_rows (plan_links plan.now) table.now switches) }
    ensures solved { SolvedSays (plan_links plan.now) table.now switches }
{
    let reading = read(plan, table, switches)?;
    Ok(reading.walk(switches).line_up)
}

// The line-up that follows one that is listed; none after the last.
fn following(plan: &Plan, table: &[u8], line_up: u32) -> Result<Option<u32>, Refusal>
    ensures { result ≡ next_answer (plan_links plan.now) table.now (Some line_up) }
{
    let reading = read(plan, table, line_up)?;
    let walk = reading.walk(line_up);
    if walk.line_up != line_up {
        return Err(Refusal::NotListed);
    }
    let Some(turned) = walk.turn else {
        return Ok(None);
    };
    Ok(Some(reading.walk(turned).line_up))
}

// The first line-up that is listed, or the one that follows; none after the last. A line-up is listed where it is that of itself as switches,
// and those of the choice table of a question are the lawful ones.
pub fn next(plan: &Plan, table: &[u8], after: Option<u32>) -> Result<Option<u32>, Refusal>
    ensures answer { result ≡ next_answer (plan_links plan.now) table.now after }
    ensures uppermost { Uppermost (next_rows (plan_links plan.now) table.now after) }
    ensures run { RunsThrough (plan_links plan.now) table.now }
    ensures order { InOrder }
    ensures first { HasFirst (plan_links plan.now) table.now }
    ensures lawful { ListsLawful (plan_links plan.now) table.now }
{
    match after {
        None => instance(plan, table, 0).map(Some),
        Some(line_up) => following(plan, table, line_up),
    }
}
