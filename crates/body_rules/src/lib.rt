//! The rules of linking for bodies of units: statements, calls of instances, and charts.
#![tactic(auto)]

mod calls;
mod charts;
mod counters;
mod labels;
mod loops;
mod noted;
mod outside;
mod rules;
mod statements;
mod targets;

pub use charts::body;
pub use outside::{BlockPart, Bodies, Called, CounterVariable, ExactType, Scalar};
