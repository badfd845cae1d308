// The traits through which everything of the outside is reached, their forms in memory, and thin adapters over the runtime.
#![tactic(auto)]

pub mod faults;
pub mod lists;
pub mod memory;
pub mod os;
pub mod outside;
pub mod steps;
pub mod sure;
pub mod texts;
