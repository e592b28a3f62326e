// Line-ups read off a choice table: the one that switches choose, and one after the other in order.
#![tactic(auto)]

pub mod calls;
mod walks;

pub use calls::{instance, next};
