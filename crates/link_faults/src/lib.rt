//! The faults of linking: their codes, the first of them, and what is told of a part of a project.
#![tactic(auto)]

mod code;
mod fault;
mod law;

pub use code::LinkCode;
pub use fault::{Faults, LinkFault};
pub use law::first_fault_laws;
