//! What declarations give: types, and initial values of what is declared.
#![tactic(auto)]

mod initialised;
mod located;
mod outside;
mod structures;

pub use located::{result_type, variables};
pub use outside::Declares;
pub use structures::data_type;
