//! Directed graphs of numbered nodes: which nodes lead back to themselves, and an order in which each node
//! comes after its targets.
#![tactic(auto)]

mod depth_first;
mod graph;
mod group;
mod numbering;
mod ordering;
#[cfg(test)]
mod tests;
mod transposed;

pub use graph::Graph;
pub use numbering::{ComponentNumbers, components};
pub use ordering::order;
