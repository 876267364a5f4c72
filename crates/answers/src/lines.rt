//! Lines in, lines out: a line is kept until it ends.
use crate::reply::Desk;
use page::less;
use requests::{MOST_LINE, MOST_STORE, request_of};
use std::alloc::AllocError;
use std::io;
use std::io::{BufRead, BufReader};

// All that a line's digits can say.
const MOST_DECODED: usize = MOST_LINE / 2;

// How much is read at a time.
const PIECE: usize = 65536;

// Puts a part of a line behind what is there; of a line that is too long, enough to tell.
fn keep(line: &mut Vec<u8>, part: &[u8]) -> Result<(), AllocError> {
    let room = less(MOST_LINE + 1, line.len());
    line.extend_from_slice(part.get(..room).unwrap_or(part))
}

// Answers each line that ends in a piece of the input, and sends the answers; keeps the line that does not.
fn take_lines(
    mut desk: Desk,
    piece: &[u8],
    line: &mut Vec<u8>,
    room: &mut [u8],
    store: &mut [u8],
) -> Result<Desk, AllocError> {
    for part in piece.split_inclusive(|x| *x == b'\n') {
        match part.strip_suffix(b"\n") {
            Some(end) => {
                keep(line, end)?;
                desk = desk.answer(request_of(line.as_slice(), room), store);
                line.clear();
            }
            None => keep(line, part)?,
        }
    }
    Ok(desk.sent())
}

// Reads to the end of the input, and answers. A proved loop ends, and nothing says that the input does: so reads are
// counted, to a number that no run reaches.
pub(crate) fn answer_all(rt: &HostRuntime) -> io::Result<()> {
    let alloc = rt.alloc();
    let mut input = BufReader::with_capacity(alloc, PIECE, rt.stdin())?;
    let mut room = vec![in alloc; 0u8; MOST_DECODED]?;
    let mut line = Vec::with_capacity(alloc, MOST_LINE + 1)?;
    let mut store = vec![in alloc; 0u8; MOST_STORE]?;
    let mut desk = Desk::new(rt);
    for _ in 0..u64::MAX {
        let piece = input.fill_buf().unwrap_or(&[]);
        let size = piece.len();
        desk = take_lines(desk, piece, &mut line, &mut room, &mut store)?;
        input.consume(size);
        if size == 0 && line.is_empty() {
            break;
        }
        // The end of the input ends its last line too.
        if size == 0 {
            desk = take_lines(desk, b"\n", &mut line, &mut room, &mut store)?;
        }
    }
    Ok(())
}
