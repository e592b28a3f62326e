// Elimination of one spot at a time: link sets, plans, codes and the choice table, and the calls that ask for them.
#![tactic(auto)]

mod buckets;
pub mod cells;
pub mod codes;
pub mod eliminating;
mod filling;
mod gathering;
pub mod limits;
mod links;
pub mod plans;
mod reading;
pub mod solving;
pub mod trials;

pub use codes::Code;
pub use plans::Plan;
pub use solving::solve;
pub use trials::trial;
