//! Initial values as they are written, judged against the types of what they stand for.
#![tactic(auto)]

mod elements;
mod fields;
mod initials;
mod nodes;
mod outside;
mod untyped;
mod written;

pub use initials::initial_value;
pub use nodes::{init_node, node_of};
pub use outside::Counts;
pub use untyped::alone;
pub use written::{FieldAt, Part, Run, Written};
