//! Declarations of Structured Text: their trees, and the place where a text stops being one.
#![tactic(auto)]

mod array_specs;
mod configurations;
mod declarations;
mod initial_values;
mod lists;
mod structures;
mod type_names;

pub use array_specs::spec;
pub use configurations::config;
pub use declarations::{globals, sections};
pub use initial_values::initial;
pub use lists::{Reader, more};
pub use structures::types;
pub use type_names::typename;
