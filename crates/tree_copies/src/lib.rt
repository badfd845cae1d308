//! Copies of trees of source texts, and of the code of tasks.
#![tactic(auto)]

mod charts;
mod code;
mod copied;
mod declarations;
mod expressions;
mod files;
mod results;
mod statements;

pub use code::{copy_code, copy_component, copy_task_code};
pub use copied::Copied;
