//! Which declarations of a project name which others, which lead back to themselves,
//! and an order in which each comes behind those that it waits for.
#![tactic(auto)]

mod computing;
mod declared;
mod graphs;
mod leading;
mod table;

pub use computing::computing_order;
pub use declared::DeclTable;
pub use graphs::{found, global_named, type_named, variable_site};
pub use leading::{DeclComponents, decl_components};
