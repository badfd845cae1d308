//! What the files of a project declare: units, declarations, and the names of all scopes.
#![tactic(auto)]

mod charts;
mod collected;
mod configurations;
mod files;
mod globals;
mod rows;
mod scopes;
mod units;

pub use collected::Collected;
pub use files::collect;
pub use rows::{DeclRow, Local, Owner, Source, UnitNo, UnitRow, What};
pub use scopes::{ADDRESSES, GLOBAL, LINES, OUTERMOST, TASKS, VALUES, locals};
