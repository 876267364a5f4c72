//! What a line asks of the log: its word and its fields, read.
use crate::field::bytes;
use text::number;

/// No store has more bytes, and no place is further: more than a log may have, so that 52 can be seen.
pub const MOST_STORE: usize = 70000;

const MOST_BYTE: usize = 255;

// No more bytes are shown at a time.
const MOST_SHOWN: usize = 4096;

// No power lasts for more writes.
const MOST_WRITES: usize = 200000;

/// A request of the log with its numbers and its bytes. A store's byte is any number, taken modulo 256: a `u8` would ask more
/// of who makes a request.
#[derive(Clone, Copy)]
pub enum LogRequest<'a> {
    Store { size: usize, byte: usize },
    Put { at: usize, bytes: &'a [u8] },
    Append { plan: &'a [u8] },
    Cut { plan: &'a [u8], most: usize },
    Newest,
    Listed,
    Peek { at: usize, count: usize },
}

// The request of the log that a line's fields say.
pub(crate) fn log_asked<'a>(fields: &[&[u8]], room: &'a mut [u8]) -> Option<LogRequest<'a>> {
    Some(match fields {
        [b"store", size, byte] => LogRequest::Store {
            size: number(size, MOST_STORE)?,
            byte: number(byte, MOST_BYTE)?,
        },
        [b"put", at, said] => LogRequest::Put {
            at: number(at, MOST_STORE)?,
            bytes: bytes(room, said)?,
        },
        [b"append", plan] => LogRequest::Append {
            plan: bytes(room, plan)?,
        },
        [b"cut", plan, most] => LogRequest::Cut {
            plan: bytes(room, plan)?,
            most: number(most, MOST_WRITES)?,
        },
        [b"newest"] => LogRequest::Newest,
        [b"listed"] => LogRequest::Listed,
        [b"peek", at, count] => LogRequest::Peek {
            at: number(at, MOST_STORE)?,
            count: number(count, MOST_SHOWN)?,
        },
        _ => return None,
    })
}
