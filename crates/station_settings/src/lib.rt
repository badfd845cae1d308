//! The settings of the station, read from TOML.
#![tactic(auto)]

mod callers;
mod disabled;
mod entry;
mod field;
mod settings;

pub use field::{Field, SettingsRefusal};
pub use settings::read_settings;
pub use st_tree::{CallerKey, Settings};
