//! The writes of an append, made in the file one by one and in the log's order, so that a program that ends between two of
//! them leaves what a cut of power leaves.
use page::{less, plus};
use std::fs::File;
use std::io;
use std::os::unix::fs::FileExt;

// Makes every write of the append that puts a plan at a place; stops at the first that fails, and says why it did. A plan
// counts from its last byte on: before that, and before its first, the disk is asked to have all the others. The writes go
// by number, as the log gives them.
pub(crate) fn make(file: &File, size: usize, at: usize, plan: &[u8]) -> io::Result<()> {
    let zeros = less(size, at);
    let all = plus(zeros, plan.len());
    for k in 0..all {
        if k == zeros || k + 1 == all {
            file.sync_all()?;
        }
        if let Some(write) = planlog::nth_write(size, at, plan, k) {
            file.write_all_at(&[write.byte], write.place as u64)?;
        }
    }
    file.sync_all()
}
