//! The first form, the form of programs whose analysis is built: one program of INT variables,
//! assignments and sums. Its trees, and how they
//! are recognised among the trees of source files.
#![tactic(auto)]

mod declarations;
mod form;
mod former;
mod law;
mod names;
mod numbers;
mod program;
mod refusal;
mod sums;
mod tree;

pub use form::first_form;
pub use law::form_laws;
pub use tree::{Decl, Expr, Identifier, Literal, Path, Section, SourceTree, Spec, Stmt, Unit};
