// The tables of the profile that stand on nothing: kinds of faults, elementary types with their ranges and conversions, letters,
// words and rules.
#![tactic(auto)]

pub mod elem;
pub mod fault;
pub mod guidelines;
pub mod kind;
pub mod letters;
pub mod rule;
pub mod words;
