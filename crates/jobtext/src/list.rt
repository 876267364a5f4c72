//! The fields of a list's bytes, safe at any place: 0 where the list has none.
use joblist::{EDGE_BYTES, HEAD_BYTES, JOB_BYTES, MOST_JOBS};
use page::after;
use text::byte_at;

// The pairs of jobs: no list has more edges.
const PAIRS: usize = MOST_JOBS * MOST_JOBS;

// The place of a field of job j; none where no list has such a job.
fn field_at(j: usize, field: usize) -> Option<usize> {
    if j < MOST_JOBS && field < JOB_BYTES {
        Some(HEAD_BYTES + JOB_BYTES * j + field)
    } else {
        None
    }
}

// The place of edge e, after n jobs; none where no list has such an edge.
fn edge_at(n: usize, e: usize) -> Option<usize> {
    if n <= MOST_JOBS && e <= PAIRS {
        Some(HEAD_BYTES + JOB_BYTES * n + EDGE_BYTES * e)
    } else {
        None
    }
}

// The 16 bits at a place, the low byte first.
fn u16_at(list: &[u8], i: usize) -> usize {
    let low = byte_at(list, i);
    let high = byte_at(list, after(i));
    usize::from(u16::from_le_bytes([low, high]))
}

// A field of job j.
fn field(list: &[u8], j: usize, field: usize) -> usize {
    field_at(j, field).map_or(0, |i| u16_at(list, i))
}

pub fn jobs(list: &[u8]) -> usize {
    u16_at(list, 0)
}

pub fn edges(list: &[u8]) -> usize {
    u16_at(list, 2)
}

pub fn slots(list: &[u8]) -> usize {
    u16_at(list, 4)
}

pub fn arrival(list: &[u8], j: usize) -> usize {
    field(list, j, 0)
}

pub fn deadline(list: &[u8], j: usize) -> usize {
    field(list, j, 2)
}

pub fn ordinary(list: &[u8], j: usize) -> usize {
    field(list, j, 4)
}

pub fn high(list: &[u8], j: usize) -> usize {
    field(list, j, 6)
}

pub fn is_high(list: &[u8], j: usize) -> bool {
    field_at(j, 8).is_some_and(|i| byte_at(list, i) == 1)
}

pub fn edge_from(list: &[u8], e: usize) -> usize {
    edge_at(jobs(list), e).map_or(0, |i| usize::from(byte_at(list, i)))
}

pub fn edge_to(list: &[u8], e: usize) -> usize {
    edge_at(jobs(list), e).map_or(0, |i| usize::from(byte_at(list, after(i))))
}
