// Sheets: spots, rules and prices, booked by calls and told by a ledger.
#![tactic(auto)]

pub mod book;
pub mod bookings;
mod calls;
pub mod cards;
mod entries;
pub mod limits;
pub mod pins;
mod places;
mod postings;
mod price_list;
pub mod prices;
pub mod questions;
pub mod replays;
pub mod states;

pub use bookings::{Answer, Booking};
pub use cards::{Card, Pin, Pinning};
pub use pins::replay_pins;
pub use prices::Price;
pub use questions::Rule;
pub use replays::replay;
pub use states::{Draft, DraftState, Locked, LockedState, Sheet, SheetIn, SheetState};
