//! Two tables as people write them, a line a run of slots: read into the tables' bytes, and written again.
#![tactic(auto)]

mod mistake;
mod reader;
mod writer;

pub use jobtext::put_mistake;
pub use mistake::{Mistake, Wrong};
pub use reader::{Tables, read};
pub use writer::put_pair;
