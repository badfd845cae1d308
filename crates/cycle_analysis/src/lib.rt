//! The analysis of one task: one pass over its code in intervals, and the least closed table that passes lead to.
#![tactic(auto)]

mod law;
mod row;
mod solution;
mod task_pass;

pub use law::headline;
pub use row::Row;
pub use solution::{Solution, solve};
