//! What expressions are: their types, the numbers of constant ones, and their faults.
#![tactic(auto)]

mod answers;
mod arguments;
mod expressions;
mod function_calls;
mod judged;
mod loose;
mod meaning;
mod operators;
mod parts;
mod places;
mod rules;
mod shared;
mod standard_calls;
mod standard_inputs;
mod types;

pub use expressions::{constant_number, judge, judge_path, placed};
pub use judged::{ExprType, Judged, Place, Standing};
pub use loose::node_of;
pub use meaning::{
    Callee, Constant, Field, FunctionNo, Meaning, Names, Seen, ShapeNo, Taken, TypeValue,
    TypedNumber, ValueType,
};
pub use types::common;
