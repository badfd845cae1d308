//! The text of a report.
#![tactic(auto)]

mod put;
mod text_report;

pub use text_report::text;
