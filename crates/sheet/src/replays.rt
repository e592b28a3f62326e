// A history of calls, made on a new sheet.
ghost use Rattle.std.specs.Prelude.{◌≡◌, map};
ghost use Rattle.sheet.specs.Ledger.{empty_ledger, step, tell, UppermostRefuses};
ghost use Rattle.sheet.specs.History.{draft_ledger, locked_ledger, sheet_ledger, call, answer_to, answers_to, noted, Replays, spot_answer, done_answer};

use crate::bookings::{Answer, Booking};
use crate::states::{Draft, Locked, Sheet};
use terms::Refusal;

// What declaring a spot answered. A second conversion follows, since the other calls answer nothing: both refuse alike.
impl From<Result<u32, Refusal>> for Answer {
    ghost from_gives = { λ res answer. answer ≡ spot_answer res };

    fn from(res: Result<u32, Refusal>) -> Self {
        match res {
            Ok(spot) => Answer::Spot(spot),
            Err(refusal) => Answer::Refused(refusal),
        }
    }
}

// What a call that numbers no spot answered.
impl From<Result<(), Refusal>> for Answer {
    ghost from_gives = { λ res answer. answer ≡ done_answer res };

    fn from(res: Result<(), Refusal>) -> Self {
        match res {
            Ok(()) => Answer::Done,
            Err(refusal) => Answer::Refused(refusal),
        }
    }
}

impl Draft {
    // Makes a call on a draft. Unlock is passed over.
    // Built in as `Sheet::make` is.
    #[inline(always)]
    fn make(mut self, booking: Booking<'_>) -> (Sheet, Answer)
        ensures after { sheet_ledger result.0 ≡ step (draft_ledger self) (call booking.entry) }
        ensures answer { result.1 ≡ answer_to (draft_ledger self) (call booking.entry) }
    {
        let answer = match booking {
            Booking::Declare { house } => self.declare(house).into(),
            Booking::Post {
                number,
                relation,
                bound,
                terms,
            } => self.post(number, relation, bound, terms).into(),
            Booking::Price { amount, group } => self.price(amount, group).into(),
            Booking::Withdraw { number } => self.withdraw(number).into(),
            Booking::Lock => return (Sheet::Locked(self.lock()), Answer::Done),
            Booking::Unlock => Answer::PassedOver,
        };
        (Sheet::Draft(self), answer)
    }
}

impl Locked {
    // Makes a call on a locked sheet. All but unlock are passed over.
    fn make(self, booking: Booking<'_>) -> (Sheet, Answer)
        ensures after { sheet_ledger result.0 ≡ step (locked_ledger self) (call booking.entry) }
        ensures answer { result.1 ≡ answer_to (locked_ledger self) (call booking.entry) }
    {
        match booking {
            Booking::Unlock => (Sheet::Draft(self.unlock()), Answer::Done),
            _ => (Sheet::Locked(self), Answer::PassedOver),
        }
    }
}

impl Sheet {
    // Makes a call on a sheet. A call that the sheet's state does not have is passed over.
    // Built into its callers: a call through a function value, as a replay makes, would else fill the place of its result with zeros and copy the
    // sheet once more.
    #[inline(always)]
    pub fn make(self, booking: Booking<'_>) -> (Sheet, Answer)
        ensures after { sheet_ledger result.0 ≡ step (sheet_ledger self) (call booking.entry) }
        ensures answer { result.1 ≡ answer_to (sheet_ledger self) (call booking.entry) }
    {
        match self {
            Sheet::Draft(draft) => draft.make(booking),
            Sheet::Locked(locked) => locked.make(booking),
        }
    }
}

// Makes the calls of a history in their order, each on the state that the one before it leads to. Each answer is noted at its call's
// place, as far as `answers` reaches; what lies beyond the history stays. The caller lends the slice, since nothing is allocated.
pub(crate) fn replay_with<S, C: Copy, A: Copy, F: Fn(S, C) -> (S, A)>(
    start: S,
    history: &[C],
    answers: &mut [A],
    make: F,
) -> S
    requires { F.IsAlwaysCallable make }
    ensures { Replays (λ s c t a. F.post make s c (t, a)) start history.now result answers.old answers.new }
{
    let mut state = start;
    for (i, call) in history.iter().enumerate() {
        let (after, answer) = make(state, *call);
        // By index: tried by `iter_mut` and by `split_first_mut`, the proof did not learn what the slice holds afterwards.
        if i < answers.len() {
            answers[i] = answer;
        }
        state = after;
    }
    state
}

// Makes the calls of a history on a new sheet, in their order. Each answer is noted at its call's place, as far as `answers` reaches; what
// lies beyond the history stays. The refusals among the answers are the uppermost that fit.
pub fn replay(history: &[Booking<'_>], answers: &mut [Answer]) -> Sheet
    ensures after { sheet_ledger result ≡ tell (map call history.now) }
    ensures answers { answers.new ≡ noted answers.old (answers_to empty_ledger (map call history.now)) }
    ensures uppermost { UppermostRefuses }
{
    replay_with(Sheet::Draft(Draft::new()), history, answers, Sheet::make)
}
