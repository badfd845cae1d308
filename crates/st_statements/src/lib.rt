//! Statements of Structured Text: their trees, and the place where a text stops being statements.
#![tactic(auto)]

mod cases;
mod labels;
mod simple;
mod statements;
mod structured;

pub use statements::statement_list;
