//! Requests, a line each: what a line asks, with its bytes decoded.
#![tactic(auto)]

mod field;
mod log;
mod request;

pub use log::{LogRequest, MOST_STORE};
pub use request::{MOST_LINE, MOST_ROOM, Request, Tables, request_of};
