//! The order of the nodes of a tree, and the tokens that its texts come from.
#![tactic(auto)]

mod law;

pub use law::{literal_laws, order_laws};
