//! The dispatcher's machine: one step over the parts of a state, lent. No array is copied.
#![tactic(auto)]

pub mod answer;
pub mod head;
pub mod step;
pub mod tick;
