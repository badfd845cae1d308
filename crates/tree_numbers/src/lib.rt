//! Trees with their nodes numbered in the order of the text.
#![tactic(auto)]

mod charts;
mod declarations;
mod expressions;
mod files;
mod law;
mod numbered;
mod numbers;
mod starts;
mod statements;
mod trees;

pub use law::numbering_laws;
pub use numbers::{Counting, numbered_node};
pub use starts::Starts;
pub use trees::{number_expr, number_parts, number_sfc, number_stmts};
