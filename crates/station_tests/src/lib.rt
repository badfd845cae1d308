//! Tests of the station over keepers in memory.
#![tactic(auto)]

#[cfg(test)]
mod requests;
#[cfg(test)]
mod tests;
