// Histories of a sheet and of a card, given as data and really made, and what is then asked: the call that carries the promise of the whole part.
ghost use Rattle.std.specs.Prelude.{◌≡◌, true, [], length, map};
ghost use Rattle.sheet.specs.Ledger.{empty_ledger, tell, with_lock};
ghost use Rattle.sheet.specs.Cards.{pins_of, pin_call, pin_answer, tell_pins};
ghost use Rattle.sheet.specs.History.{call, locked_ledger, noted, answers_to};
ghost use Rattle.elimination.specs.Plans.{plan_links};
ghost use Rattle.elimination.specs.Answers.{solve_answer, solved_plan, solved_table};
ghost use Rattle.solutions.specs.Answers.{instance_answer};
ghost use Rattle.figures.specs.Operations.{operations};
ghost use Rattle.rating.specs.Answers.{rate_answer, best_answer, rated_figures};
ghost use Rattle.lineup.specs.Promise.{told, Fits, NoneExactly, HoldsCodes, InstanceLawful, GivesItself, RateOverAll, BestOfAll, EachRefused, after_solve};

use elimination::{Plan, solve};
use figures::{Ranked, Rating};
use rating::{best, rate};
use sheet::{Answer, Booking, Card, Locked, Pinning, Sheet, replay, replay_pins};
use solutions::instance;
use terms::Refusal;

// A history of calls on a new sheet, and one of pins and unpins of a new card.
#[derive(Clone, Copy)]
pub struct Histories<'a> {
    pub bookings: &'a [Booking<'a>],
    pub pinnings: &'a [Pinning],
}

// The sheet and the card that the histories lead to, the plan that solve leaves, and the answers.
#[derive(Drop)]
pub struct Outcome<F, G> {
    pub sheet: Locked,
    pub card: Card,
    pub plan: Plan,
    pub solved: Result<(), Refusal>,
    pub instance: Result<u32, Refusal>,
    pub rate: Result<F, Refusal>,
    pub ranked_rate: Result<G, Refusal>,
    pub best: Result<(G, u32), Refusal>,
}

// The sheet that a history leads to, locked.
fn locked_after(bookings: &[Booking<'_>], answers: &mut [Answer]) -> Locked
    ensures ledger { locked_ledger result ≡ with_lock (tell (map call bookings.now)) true }
    ensures answers { answers.new ≡ noted answers.old (answers_to empty_ledger (map call bookings.now)) }
{
    match replay(bookings, answers) {
        Sheet::Draft(draft) => draft.lock(),
        Sheet::Locked(locked) => locked,
    }
}

// What instance answers, where solve has accepted.
fn instance_after(
    solved: Result<(), Refusal>,
    plan: &Plan,
    table: &[u8],
    switches: u32,
) -> Result<u32, Refusal>
    ensures { result ≡ after_solve solved (instance_answer (plan_links plan.now) table.now switches) }
{
    solved?;
    instance(plan, table, switches)
}

// Makes the calls of both histories, on a new sheet and a new card, and notes their answers as far as the slices for them reach; locks the
// sheet; and asks solve, the instance of the switches, rate under any rating, and rate and best under any ranked one.
pub fn replay_and_ask<R: Rating, K: Ranked>(
    histories: Histories<'_>,
    answers: &mut [Answer],
    pin_answers: &mut [Result<(), Refusal>],
    switches: u32,
    rating: &R,
    ranked: &K,
    choices: &mut [u8],
    figures: &mut [R::Figure],
    ranked_figures: &mut [K::Figure],
) -> Outcome<R::Figure, K::Figure>
    ensures none { Fits (told histories.entry) choices.old figures.old ranked_figures.old → NoneExactly (told histories.entry) result.solved }
    ensures codes { Fits (told histories.entry) choices.old figures.old ranked_figures.old → HoldsCodes (told histories.entry) result.solved choices.old choices.new }
    ensures every_instance_lawful { Fits (told histories.entry) choices.old figures.old ranked_figures.old → InstanceLawful (told histories.entry) choices.new switches result.instance }
    ensures each_gives_itself { Fits (told histories.entry) choices.old figures.old ranked_figures.old → GivesItself (told histories.entry) switches result.instance }
    ensures rate_over_all { Fits (told histories.entry) choices.old figures.old ranked_figures.old → RateOverAll (operations R.Rating rating.now) (told histories.entry) result.rate }
    ensures best_of_all { Fits (told histories.entry) choices.old figures.old ranked_figures.old → BestOfAll (operations K.Rating ranked.now) (told histories.entry) result.ranked_rate result.best }
    ensures refused { EachRefused (told histories.entry) (length choices.old) (length figures.old) (length ranked_figures.old) result.solved result.instance result.rate result.ranked_rate result.best }
    ensures ledger { locked_ledger result.sheet ≡ with_lock (tell (map call histories.entry.bookings.now)) true }
    ensures answers { answers.new ≡ noted answers.old (answers_to empty_ledger (map call histories.entry.bookings.now)) }
    ensures pins { pins_of result.card ≡ tell_pins (map pin_call histories.entry.pinnings.now) }
    ensures pin_answers { pin_answers.new ≡ noted pin_answers.old (map pin_answer (map pin_call histories.entry.pinnings.now)) }
    ensures solved { result.solved ≡ solve_answer (told histories.entry) (length choices.old) }
    ensures plan { plan_links result.plan ≡ solved_plan (told histories.entry) (length choices.old) [] }
    ensures choices { choices.new ≡ solved_table (told histories.entry) choices.old }
    ensures instance { result.instance ≡ after_solve result.solved (instance_answer (plan_links result.plan) choices.new switches) }
    ensures rate { result.rate ≡ rate_answer (operations R.Rating rating.now) (told histories.entry) (length choices.old) (length figures.old) }
    ensures figures { figures.new ≡ rated_figures (operations R.Rating rating.now) (told histories.entry) (length choices.old) figures.old }
    ensures ranked_rate { result.ranked_rate ≡ rate_answer (operations K.Rating ranked.now) (told histories.entry) (length choices.old) (length ranked_figures.old) }
    ensures best { result.best ≡ best_answer (operations K.Rating ranked.now) (K.first ranked.now) (told histories.entry) (length choices.old) (length ranked_figures.old) }
    ensures ranked_figures { ranked_figures.new ≡ rated_figures (operations K.Rating ranked.now) (told histories.entry) (length choices.old) ranked_figures.old }
{
    let sheet = locked_after(histories.bookings, answers);
    let card = replay_pins(histories.pinnings, pin_answers);
    let mut plan = Plan::new();
    let solved = solve(&sheet, &card, &mut plan, choices);
    let instance = instance_after(solved, &plan, choices, switches);
    let rated = rate(&sheet, &card, rating, choices, figures);
    let ranked_rate = rate(&sheet, &card, ranked, choices, ranked_figures);
    let best = best(&sheet, &card, ranked, choices, ranked_figures);
    Outcome {
        sheet,
        card,
        plan,
        solved,
        instance,
        rate: rated,
        ranked_rate,
        best,
    }
}
