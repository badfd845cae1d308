//! The meaning of the code of tasks: its steps, its faults and its runs.
#![tactic(auto)]
