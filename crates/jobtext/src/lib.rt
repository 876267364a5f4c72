//! The job list as people write it, a line a job and a line an edge: read into a list's bytes, and written again.
#![tactic(auto)]

pub mod line;
pub mod list;
mod mistake;
mod names;
mod reader;
mod writer;

pub use mistake::{Expected, Mistake, Wrong, put_mistake};
pub use names::Names;
pub use reader::{Jobs, read};
pub use writer::{put_edge, put_list};
