// Terms over groups of spots, the relations of rules, the refusals, and the tests of a list of terms. Knows no sheet.
#![tactic(auto)]

pub mod groups;
pub mod laws;
pub mod limits;
pub mod packs;
pub mod polynomials;
pub mod refusals;
pub mod relations;
pub mod rows;
pub mod worths;

pub use polynomials::Term;
pub use refusals::Refusal;
pub use relations::Relation;
