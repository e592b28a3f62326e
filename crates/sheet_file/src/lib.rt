// The sheet as a file: written to bytes and read back.
#![tactic(auto)]

pub mod faults;
mod kinds;
pub mod limits;
mod reader;
pub mod reading;
pub mod writing;

pub use faults::{FileFault, FileRefusal};
pub use reading::read;
pub use writing::write;
