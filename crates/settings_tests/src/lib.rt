//! Tests of the station's settings. It has no code of its own.
#![tactic(auto)]

#[cfg(test)]
mod tests;
