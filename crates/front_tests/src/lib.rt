//! Tests of what is made of a text: its tokens, the values of literals, its trees, and copies of them. It has no code of its own.
#![tactic(auto)]

#[cfg(test)]
mod copy_tests;
#[cfg(test)]
mod token_tests;
#[cfg(test)]
mod tree_tests;
#[cfg(test)]
mod value_tests;
