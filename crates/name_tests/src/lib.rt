//! Tests of names: those that scopes declare, and those of the standard. It has no code of its own.
#![tactic(auto)]

#[cfg(test)]
mod scope_tests;
#[cfg(test)]
mod standard_tests;
