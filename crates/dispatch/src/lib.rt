//! The dispatcher: a state, made of a plan's bytes, and the step that each tick takes.
#![tactic(auto)]

pub mod open;
pub mod state;
