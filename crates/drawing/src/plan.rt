//! What a plan's bytes say of its tables: nothing is asked of a caller.
use jobtext::{Names, list};
use page::less;
use std::ops::Range;
use verdict::count::{entries_before, entry_at};

/// The two tables of a plan.
#[derive(Clone, Copy, PartialEq, Eq)]
pub enum Table {
    Low,
    High,
}

/// A plan's bytes, and the names of its jobs.
#[derive(Clone, Copy)]
pub struct Plan<'a> {
    pub bytes: &'a [u8],
    pub names: &'a Names,
}

impl<'a> Plan<'a> {
    /// Its job list.
    pub fn list(self) -> &'a [u8] {
        planfile::list_of(self.bytes)
    }

    /// The numbers of its jobs.
    pub fn jobs(self) -> Range<usize> {
        0..list::jobs(self.list())
    }

    /// The numbers of its slots.
    pub fn slots(self) -> Range<usize> {
        0..list::slots(self.list())
    }

    /// The entries of a table.
    pub fn table(self, table: Table) -> &'a [u8] {
        match table {
            Table::Low => planfile::low_of(self.bytes),
            Table::High => planfile::high_of(self.bytes),
        }
    }

    /// The entry of slot t.
    pub fn entry(self, table: Table, t: usize) -> usize {
        entry_at(self.table(table), t)
    }

    /// How many of a table's slots before slot t name a job.
    pub fn entries(self, table: Table, j: usize, t: usize) -> usize {
        entries_before(self.table(table), j, t)
    }

    // Whether job j is a high job with CHI > CLO.
    fn may_switch(self, j: usize) -> bool {
        let list = self.list();
        j < list::jobs(list)
            && list::is_high(list, j)
            && list::ordinary(list, j) < list::high(list, j)
    }

    /// Whether a high job with CHI > CLO has its CLO-th unit in slot t of table LO.
    pub fn switches(self, t: usize) -> bool {
        let j = self.entry(Table::Low, t);
        let before = less(list::ordinary(self.list(), j), 1);
        self.may_switch(j) && self.entries(Table::Low, j, t) == before
    }

    /// Whether job j may run in slot t.
    pub fn is_open(self, j: usize, t: usize) -> bool {
        let list = self.list();
        (list::arrival(list, j)..list::deadline(list, j)).contains(&t)
    }
}
