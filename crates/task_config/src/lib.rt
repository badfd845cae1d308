//! The plan of a project: its tasks, their cells and their code.
#![tactic(auto)]

mod code;
mod component;

pub use component::plan;
