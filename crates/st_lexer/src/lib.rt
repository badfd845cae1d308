//! Tokens: the one cut of a text, or its first fault; and the values of literals and addresses.
#![tactic(auto)]

mod addresses;
mod bytes;
mod comments;
mod cut;
mod front;
mod marks;
mod numbers;
mod times;
mod values;
mod words;

pub use cut::{LexFault, cut_laws, tokens};
pub use values::{
    AddressValue, Area, TypedValue, Width, address_value, number_value, time_value, typed_value,
    value_laws, with_sign,
};
