// Elimination as a pseudo-Boolean equation, and worked examples, as statements.
#![tactic(auto)]

pub mod examples;
pub mod laws;
