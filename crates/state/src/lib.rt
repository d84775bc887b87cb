// The threads' states and the cores' kept counts, as lists: what a system's events ask of them and make of them.
#![tactic(auto)]

pub mod allowance;
pub mod rules;
pub mod threads;
