//! Sequential function charts: their trees, and the place where a text stops being one.
#![tactic(auto)]

mod actions;
mod chart;
mod steps;
mod transitions;

pub use chart::sfc;
