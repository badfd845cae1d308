//! What the specifications of declarations give: types, their bounds, and the initial value of what
//! has such a type.
#![tactic(auto)]

mod arrays;
mod bounds;
mod forms;
mod given;
mod outside;
mod specifications;

pub use bounds::bounds_of;
pub use forms::{ArrayForm, Dim, FieldForm, Form};
pub use given::{Bounds, DeclType, Given, Initial, ValueNo};
pub use outside::{ConstantPlace, NamedType, Outside};
pub use specifications::{elementary, specification, type_named};
