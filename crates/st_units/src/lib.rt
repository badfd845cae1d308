//! Files of Structured Text: their trees, and the place where a text stops being one.
#![tactic(auto)]

mod fault;
mod fronts;
mod parts;
mod reading;
mod source_file;
mod units;

pub use fault::ParseFault;
pub use fronts::{expression, front_laws, sfc_body, statements};
pub use reading::file_laws;
pub use source_file::{parse_file, text_laws};
