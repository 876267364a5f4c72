//! The parts of a dispatcher's state, and the tests on them: row 37, those of booking, and those of the order.
#![tactic(auto)]

pub mod edges;
pub mod lent;
pub mod plan;
pub mod scan;
