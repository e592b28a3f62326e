// The two states of a sheet.
ghost use Rattle.std.specs.Prelude.{Bool, true, false};
ghost use Rattle.sheet.specs.Ledger.{Told};
ghost use Rattle.sheet.specs.Kept.{Kept};
ghost use Rattle.sheet.specs.Of.{ledger};

use crate::book::Book;
use std::marker::PhantomData;

// A state that a sheet can be in. A type and no `bool` parameter, which the check does not take beside a ghost field.
pub trait SheetState {
    ghost locked: { Bool };
}

// The state of a sheet that takes bookings.
#[derive(Clone, Copy)]
pub struct DraftState;

impl SheetState for DraftState {
    ghost locked = { false };
}

// The state of a sheet that answers questions.
#[derive(Clone, Copy)]
pub struct LockedState;

impl SheetState for LockedState {
    ghost locked = { true };
}

// A sheet in one state. Some history of calls leads to it. It has no `Model`: the rules of a ledger are a function, and a model's value is data.
#[derive(Drop)]
pub struct SheetIn<S: SheetState> {
    pub(crate) book: Book,
    pub(crate) state: PhantomData<S>,
    ghost told: { Told (ledger book S.locked) },
    ghost kept: { ∥ Kept (ledger book S.locked) ∥₁ },
}

// A sheet that takes bookings.
pub type Draft = SheetIn<DraftState>;

// A sheet that answers questions.
pub type Locked = SheetIn<LockedState>;

// A sheet in either state.
#[derive(Drop)]
pub enum Sheet {
    Draft(Draft),
    Locked(Locked),
}
