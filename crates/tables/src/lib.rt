// Tables of terms and tables of values, converted into each other. Knows no sheet.
#![tactic(auto)]

pub mod conversion;
pub mod laws;
pub mod limits;
