//! What the standard names: elementary types, functions and function blocks, and what this profile leaves out of it.
#![tactic(auto)]

mod block;
mod function;
mod joint;
mod types;

pub use block::{BlockPart, PartKind, StandardBlock, block_part, block_parts, standard_block};
pub use function::{
    StandardFunction, is_left_out_function, is_left_out_type, is_standard, standard_function,
};
pub use types::elem_named;
