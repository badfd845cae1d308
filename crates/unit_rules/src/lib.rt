//! What the names, the units and the configurations of a project may not have: each call notes the
//! first fault.
#![tactic(auto)]

mod configurations;
mod files;
mod lines;
mod names;
mod noted;
mod parameters;
mod tasks;
mod units;

pub use files::note_configurations;
pub use names::note_names;
pub use units::{MAX_UNITS, note_units};
