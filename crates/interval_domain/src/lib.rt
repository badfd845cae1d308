// Intervals of whole numbers, the operators on them, and the grid to whose numbers bounds are rounded.
#![tactic(auto)]

pub mod arithmetic;
pub mod bits;
pub mod comparison;
pub mod grid;
pub mod interval;
pub mod operators;
pub mod relation;
pub mod selection;
pub mod shifts;
mod widths;
