//! Places in texts, and the report as data.
#![tactic(auto)]

mod report;
mod span;

pub use report::{Alarm, AlarmCount, Entry, RangeLine, Refusal, Report, Verdict};
pub use span::{Position, Span, line_of, place, statement_of};
