//! The enumerations and structures that declarations of a project list, with the places of their
//! values and fields by name.
#![tactic(auto)]

mod enumerations;
mod fields;
mod listed;
mod listing;
mod numbers;
mod places;
mod twice;

pub use enumerations::Enumerations;
pub use fields::StructureFields;
pub use listed::Listed;
