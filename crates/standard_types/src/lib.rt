//! What names stand for in the standard, as functions of the name.
#![tactic(auto)]

mod names;

pub use names::{
    block_named, function_named, is_function_name, is_left_out_function, is_left_out_type,
    is_standard_name,
};
