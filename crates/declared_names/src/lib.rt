//! What the names and literals in a project's declarations mean, while what the declarations give is
//! computed one after the other and once all are known.
#![tactic(auto)]

mod at;
mod back;
mod base;
mod collecting;
mod forms;
mod literals;
mod project;
mod seen;
mod standing;
mod twice;
mod type_values;
mod typed;
mod values;
mod written;

pub use at::At;
pub use back::{expr_leads_back, init_leads_back};
pub use base::{
    found, given_at, global_number, in_function, is_constant, is_external, is_function,
    is_own_variable, number_in_unit, number_named, number_there, own_number, owner_at, unit_at,
};
pub use literals::{literal, milliseconds, typed_literal};
pub use project::Project;
pub use seen::seen_here;
pub use twice::{enumeration_here, has_field_twice};
pub use type_values::type_value_here;
pub use typed::named_type;
pub use values::{is_same, shape_listed, value_type};
