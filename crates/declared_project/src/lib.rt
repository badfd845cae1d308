//! What the declarations of a project give, computed one after the other.
#![tactic(auto)]

mod addresses;
mod asked;
mod computing;
mod declaring;
mod early;
mod reading;
mod same_types;

pub use computing::{Computed, compute};
pub use declaring::declare;
pub use early::Early;
pub use reading::Reading;
