// What makers of playout servers depend on: every public call and type of the line-up part, by name, and the call that carries the promise of
// the whole part.
#![tactic(auto)]

mod histories;

pub use elimination::limits::{MOST_CELLS, MOST_LINKS};
pub use elimination::{Code, Plan, solve, trial};
pub use figures::laws::{choice_says_so, count_says_so, three_say_so};
pub use figures::{Count, Mildest, Ranked, Rating, Takings};
pub use histories::{Histories, Outcome, replay_and_ask};
pub use rating::{best, rate, ratings_say_so, takings};
pub use sheet::limits::{MOST_AMOUNT, MOST_PRICES, MOST_SPOTS, PLACE_COUNT, RULE_NUMBERS};
pub use sheet::{
    Answer, Booking, Card, Draft, DraftState, Locked, LockedState, Pin, Pinning, Price, Rule,
    Sheet, SheetIn, SheetState, replay, replay_pins,
};
pub use sheet_file::limits::MOST_FILE;
pub use sheet_file::{FileFault, FileRefusal, read, write};
pub use solutions::{instance, next};
pub use tables::conversion::{to_terms, to_values};
pub use tables::laws::tables_say_so;
pub use tables::limits::{MOST_ENTRIES, MOST_ENTRY};
pub use terms::laws::{any_says_so, groups_say_so, relations_say_so};
pub use terms::limits::{MOST_BOUND, MOST_COEFFICIENT, MOST_NAMED, MOST_TERMS, RELATION_COUNT};
pub use terms::{Refusal, Relation, Term};
pub use theorems::examples::examples_say_so;
pub use theorems::laws::elimination_says_so;
