//! What a line asks: its word and its fields, read.
use crate::field::{bytes, decoded, mark, word};
use crate::log::{LogRequest, log_asked};
use poke::field::Field;
use text::number;

/// A longer line is not kept, and cannot be read.
pub const MOST_LINE: usize = 400000;

// No line that can be read has more fields.
const MOST_FIELDS: usize = 5;

// No number is larger, and no more bytes are lent.
const MOST_NUMBER: usize = 65535;

/// No more bytes are lent for a plan to be written in.
pub const MOST_ROOM: usize = 4096;

/// A list, and two tables of it.
#[derive(Clone, Copy)]
pub struct Tables<'a> {
    pub list: &'a [u8],
    pub lo: &'a [u8],
    pub hi: &'a [u8],
}

/// A request with its numbers and its bytes.
#[derive(Clone, Copy)]
pub enum Request<'a> {
    List {
        list: &'a [u8],
    },
    Check {
        tables: Tables<'a>,
    },
    Write {
        tables: Tables<'a>,
        lent: usize,
    },
    Build {
        list: &'a [u8],
        lent: usize,
    },
    Read {
        plan: &'a [u8],
    },
    Open {
        plan: &'a [u8],
        first: u16,
    },
    Step {
        tick: u16,
        ended: bool,
    },
    Poke {
        field: Field,
        place: usize,
        value: usize,
    },
    Count {
        table: &'a [u8],
        job: usize,
        slot: usize,
    },
    Log(LogRequest<'a>),
}

fn tables_of<'a>(room: &'a mut [u8], list: &[u8], lo: &[u8], hi: &[u8]) -> Option<Tables<'a>> {
    let (list, room) = decoded(room, list)?;
    let (lo, room) = decoded(room, lo)?;
    let hi = bytes(room, hi)?;
    Some(Tables { list, lo, hi })
}

fn poke<'a>(name: &[u8], place: &[u8], value: &[u8]) -> Option<Request<'a>> {
    let field = Field::named(name)?;
    let kind = field.kind();
    let place = number(place, MOST_NUMBER)?;
    let value = number(value, kind.most)?;
    if kind.places <= place {
        return None;
    }
    Some(Request::Poke {
        field,
        place,
        value,
    })
}

// The request that a line's fields say.
fn asked<'a>(fields: &[&[u8]], room: &'a mut [u8]) -> Option<Request<'a>> {
    Some(match fields {
        [b"list", list] => Request::List {
            list: bytes(room, list)?,
        },
        [b"check", list, lo, hi] => Request::Check {
            tables: tables_of(room, list, lo, hi)?,
        },
        [b"write", list, lo, hi, lent] => Request::Write {
            tables: tables_of(room, list, lo, hi)?,
            lent: number(lent, MOST_ROOM)?,
        },
        [b"build", list, lent] => Request::Build {
            list: bytes(room, list)?,
            lent: number(lent, MOST_ROOM)?,
        },
        [b"read", plan] => Request::Read {
            plan: bytes(room, plan)?,
        },
        [b"open", plan, first] => Request::Open {
            plan: bytes(room, plan)?,
            first: word(first)?,
        },
        [b"step", tick, ended] => Request::Step {
            tick: word(tick)?,
            ended: mark(ended)?,
        },
        [b"poke", name, place, value] => poke(name, place, value)?,
        // Any job and any slot: also a job that no entry can be, and a slot past the table.
        [b"count", table, job, slot] => Request::Count {
            table: bytes(room, table)?,
            job: number(job, MOST_NUMBER)?,
            slot: number(slot, MOST_NUMBER)?,
        },
        _ => Request::Log(log_asked(fields, room)?),
    })
}

/// The request of a line, whose bytes are decoded into a room; none where the line cannot be read. Its fields are split by
/// one blank: two blanks make an empty field.
pub fn request_of<'a>(line: &[u8], room: &'a mut [u8]) -> Option<Request<'a>> {
    if MOST_LINE < line.len() {
        return None;
    }
    // An array and no `Vec`, so that no memory can run out here.
    let mut fields = [b"".as_slice(); MOST_FIELDS];
    let mut count = 0;
    for (i, field) in line.split(|x| *x == b' ').enumerate() {
        *fields.get_mut(i)? = field;
        count = i + 1;
    }
    asked(fields.get(..count)?, room)
}
