//! What the names, addresses, parts, elements and calls in expressions of a project mean once all that
//! its declarations give is known.
#![tactic(auto)]

mod addresses;
mod callees;
mod functions;
mod letters;
mod meaning;
mod names;
mod parts;
mod rows;
mod signatures;
mod standing;
mod table;
mod whole;

pub use letters::{is_one_name, is_raised};
pub use rows::{InputRow, Signature};
pub use table::Signatures;
pub use whole::Whole;
