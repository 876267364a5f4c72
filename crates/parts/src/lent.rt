//! What a step is lent: the parts of a plan, to be read, and what it changes beside the head. Each stands where its owner keeps
//! it, so that no array is copied.
use crate::plan::{Counts, ENDS, ENTRIES, JOBS};
use joblist::MOST_JOBS;

#[derive(Clone, Copy)]
pub struct PlanParts<'a> {
    pub counts: Counts,
    pub jobs: &'a [u16; JOBS],
    pub edges: &'a [u8; ENDS],
    pub tables: &'a [u8; ENTRIES],
}

/// The unit counts of the jobs, and the marks of those that have ended and of those that were cut.
#[derive(Drop)]
pub struct Marks<'a> {
    pub units: &'a mut [u16; MOST_JOBS],
    pub done: &'a mut [u8; MOST_JOBS],
    pub cut: &'a mut [u8; MOST_JOBS],
}
