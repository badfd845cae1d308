//! The station: it answers the requests of callers on their projects.
#![tactic(auto)]

mod causes;
mod edits;
mod files;
mod law;
mod reviewer;
mod station;

pub use law::{callers_apart, replies_agree};
pub use reviewer::Reviewer;
pub use station::Station;
