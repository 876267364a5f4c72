//! The entries of a table: one of them, how many of a job stand before a slot, and the running form of that count.
ghost use Rattle.std.specs.Prelude.{◌≡◌, ◌==◌, ◌+◌, ◌<◌, length, count_by};
ghost use Rattle.basics.specs.Limits.{first_edition};
ghost use Rattle.verdict.specs.Count.{entry_at, entries_in, Running};

use crate::IDLE;
use joblist::MOST_JOBS;

/// The entries that are counted at a time. Their count fits a byte, so that the compiler can take many at once; it takes
/// 32, and 224 is the largest multiple of 32 whose count fits.
const BLOCK: usize = 224;

/// What a table holds in slot t; past its end, idle.
pub fn entry_at(table: &[u8], t: usize) -> usize
    ensures { (result ≡ entry_at table.now t) × (result < 256) }
{
    if t < table.len() {
        usize::from(table[t])
    } else {
        IDLE
    }
}

/// How many of a few entries are this one; they are so few that their count fits a byte.
fn entries_of(entry: u8, few: &[u8]) -> usize
    requires { length few.now < 256 }
    ensures { result ≡ count_by (λ x. x == entry) few.now }
{
    let mut count: u8 = 0;
    for &other in few {
        if other == entry {
            count += 1;
        }
    }
    usize::from(count)
}

/// How many of the entries are this one: block after block, and what is left. A `while`, so that few entries are one block and
/// cost one test.
fn entries_by_block(entry: u8, table: &[u8]) -> usize
    ensures { result ≡ count_by (λ x. x == entry) table.now }
{
    let mut count = 0;
    let mut rest = table;
    while BLOCK < rest.len() {
        let (block, others) = rest.split_at(BLOCK);
        count += entries_of(entry, block);
        rest = others;
    }
    count + entries_of(entry, rest)
}

/// How many entries of a job stand in a table before a slot: the one home of the question.
pub fn entries_before(table: &[u8], job: usize, slot: usize) -> usize
    ensures { result ≡ entries_in table.now job slot }
{
    let Ok(entry) = u8::try_from(job) else {
        return 0;
    };
    entries_by_block(entry, &table[..slot.min(table.len())])
}

/// The running form of the same count: of each job its entries in a table before a slot. No heap here nor below `hut`: an array
/// has room for the most jobs.
#[derive(Drop)]
pub(crate) struct Counts<'a> {
    pub(crate) table: &'a [u8],
    pub(crate) slot: usize,
    of_job: [usize; MOST_JOBS],
    ghost running: { Running first_edition.jobs table.now of_job slot },
}

impl<'a> Counts<'a> {
    /// Before slot 0.
    pub(crate) fn at_first(table: &'a [u8]) -> Self
        ensures table { result.table.now ≡ table.now }
        ensures slot { result.slot ≡ 0 }
    {
        Counts {
            table,
            slot: 0,
            of_job: [0; MOST_JOBS],
        }
    }

    /// Past the entry in the slot. Idle is no job, and neither is what is read past the table's end: they change no count.
    pub(crate) fn move_on(&mut self)
        requires { self.old.slot < first_edition.slots }
        ensures table { self.new.table.now ≡ self.old.table.now }
        ensures slot { self.new.slot ≡ self.old.slot + 1 }
    {
        let job = entry_at(self.table, self.slot);
        self.slot += 1;
        if job < MOST_JOBS {
            self.of_job[job] += 1;
        }
    }

    /// How many entries of a job stand before the slot.
    pub(crate) fn entries_so_far(&self, job: usize) -> usize
        requires { job < first_edition.jobs }
        ensures { result ≡ entries_in self.now.table.now job self.now.slot }
    {
        self.of_job[job]
    }
}
