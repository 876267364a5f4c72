//! A plan's two tables drawn to scale in the columns of a terminal.
#![tactic(auto)]

pub mod plan;
mod terminal;

pub use terminal::{put_counts, put_tables};
