//! The names by which declarations refer to others: types in their specifications, variables and
//! types in bounds and initial values.
#![tactic(auto)]

mod declarations;
mod expressions;
mod references;

pub use references::{Reference, ReferenceKind, References};
