//! Text in bytes: put into a buffer at a place, and read. Nothing is asked of a caller: what does not fit is not put.
#![tactic(auto)]

mod hex;
mod place;
mod read;
mod slice;

pub use hex::{put_hex, put_unhex};
pub use place::{put, put_number};
pub use read::{find, number};
pub use slice::{byte_at, part, same};
