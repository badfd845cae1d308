//! Names of the standard's texts, compared with their ASCII letters raised, and the names that scopes declare.
#![tactic(auto)]

mod letters;
mod names;

pub use letters::{compare_names, is_same_name};
pub use names::{NameRow, Names};
