//! Every refusal in words: what its number means, what to do about it, and where it is.
#![tactic(auto)]

mod number;
mod told;

pub use number::{advice, meaning, table};
pub use told::{At, No, label, tell};
