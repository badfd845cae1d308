//! Expressions and paths of Structured Text: their trees, and the place where a text stops being one.
#![tactic(auto)]

/// The value of a result. At a fault the values that are held are dropped and the function returns the fault, as at `?`.
/// Each is dropped by a call, which takes less proof than a drop in place.
#[macro_export]
macro_rules! or_drop {
    ($made:expr; $($held:ident),+) => {
        match $made {
            Ok(made) => made,
            Err(fault) => {
                $(drop($held);)+
                return Err(fault);
            }
        }
    };
}

mod expressions;
mod names;
mod paths;
mod rank;
mod whole;

pub use names::{address, identifier, name_list, node_at, word};
pub use whole::{NEST, any_expression, located, parts, path};
