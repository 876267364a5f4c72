//! Table LO. All functions here are inner ones: they are called on lists that the list's check accepts, and on tables of L bytes.
#![tactic(auto)]

ghost use Rattle.std.specs.Prelude.{◌≡◌, Bool, true, false, cond, ℕ, ◌+◌, ◌<◌, ◌≤◌, length, ltb, Ok, Err, Some, None};
ghost use Rattle.basics.specs.Find.{lowest};
ghost use Rattle.joblist.specs.Fields.{jobs, slots};
ghost use Rattle.late.specs.Table.{marked};
ghost use Rattle.lotable.specs.TableLo.{before, Tables, fits, later, pick, tables_at, clash_in};

use joblist::{MOST_JOBS, Table, arrival_of, jobs_of, ordinary_of};
use late::{List, one_more, undone_of, waiting_of};
use std::mem;

/// Where the unit of a slot comes from: a slot of a late table.
#[derive(Clone, Copy)]
pub enum Source {
    Low(usize),
    High(usize),
}

/// Why there is no table LO, with the slot.
#[derive(Clone, Copy)]
pub enum Clash {
    BothAt(usize),
    EarlyAt(usize),
}

// The late tables at the opening of a slot, and the jobs that wait there.
#[derive(Clone, Copy)]
struct Opening<'a> {
    list: List<'a>,
    waiting: &'a [bool; MOST_JOBS],
    low: &'a [u8],
    high: &'a [u8],
    slot: usize,
    ghost low_long: { length low.now ≡ slots list.bytes.now },
    ghost high_long: { length high.now ≡ slots list.bytes.now },
    ghost in_frame: { slot < slots list.bytes.now },
}

impl Opening<'_> {
    // Whether the unit in slot k of a late table may be taken.
    #[tactic(auto, unfolding(crate::specs::TableLo::fits))]
    fn fits(&self, table: &[u8], k: usize) -> bool
        requires { k < length table.now }
        ensures { result ≡ fits self.now.list.bytes.now (marked self.now.waiting.now) table.now self.now.slot k }
    {
        let list = self.list.bytes;
        let j = usize::from(table[k]);
        j < jobs_of(list) && arrival_of(list, j) <= self.slot && !self.waiting[j]
    }

    // The lowest later slot of a late table whose unit may be taken.
    fn first_fit(&self, table: &[u8]) -> Option<usize>
        requires { length table.now ≡ slots self.now.list.bytes.now }
        ensures { let s = self.now.list.bytes.now in
            let k = lowest (fits s (marked self.now.waiting.now) table.now self.now.slot) (slots s) (self.now.slot + 1) in
            result ≡ cond (ltb k (slots s)) (Some k) None }
    {
        (self.slot + 1..table.len()).find(|&k| self.fits(table, k))
    }

    // The unit for a slot at which neither late table holds a job.
    #[tactic(auto, unfolding(crate::specs::TableLo::later))]
    fn later(&self) -> Option<Source>
        ensures { result ≡ later self.now.list.bytes.now (marked self.now.waiting.now) self.now.low.now self.now.high.now self.now.slot }
    {
        if let Some(k) = self.first_fit(self.low) {
            return Some(Source::Low(k));
        }
        self.first_fit(self.high).map(Source::High)
    }

    // The unit for the slot.
    #[tactic(auto, unfolding(crate::specs::TableLo::pick))]
    fn pick(&self) -> Result<Option<Source>, Clash>
        ensures { result ≡ pick self.now.list.bytes.now (marked self.now.waiting.now) self.now.low.now self.now.high.now self.now.slot }
    {
        let n = jobs_of(self.list.bytes);
        let t = self.slot;
        let j = usize::from(self.low[t]);
        match (j < n, usize::from(self.high[t]) < n) {
            (true, true) => Err(Clash::BothAt(t)),
            (false, true) => Ok(Some(Source::High(t))),
            (true, false) if self.waiting[j] => Err(Clash::EarlyAt(t)),
            (true, false) => Ok(Some(Source::Low(t))),
            (false, false) => Ok(self.later()),
        }
    }
}

/// Table LO into out, and what is left of the late tables; up to the first slot with 22 or 23.
pub fn table_lo(
    list: List<'_>,
    low: &mut [u8],
    high: &mut [u8],
    out: &mut [u8],
) -> Result<(), Clash>
    requires { (length low.old ≡ slots list.bytes.now) × (length high.old ≡ slots list.bytes.now) × (length out.old ≡ slots list.bytes.now) }
    ensures { (result ≡ clash_in list.entry.bytes.now (record { low = low.old; high = high.old; lo = out.old }))
        × (record { low = low.new; high = high.new; lo = out.new }
        ≡ tables_at list.entry.bytes.now (record { low = low.old; high = high.old; lo = out.old }) (before (slots list.entry.bytes.now) result)) }
{
    let n = jobs_of(list.bytes);
    let mut placed = [0u16; MOST_JOBS];
    for (slot, unit) in out.iter_mut().enumerate() {
        let undone = undone_of(list, &placed, |j| ordinary_of(list.bytes, j));
        let waiting = &waiting_of(list, &undone);
        let opening = Opening {
            list,
            waiting,
            low,
            high,
            slot,
        };
        let source = opening.pick()?;
        *unit = match source {
            Some(Source::Low(k)) => mem::replace(&mut low[k], Table::IDLE),
            Some(Source::High(k)) => mem::replace(&mut high[k], Table::IDLE),
            None => Table::IDLE,
        };
        placed = one_more(n, placed, usize::from(*unit));
    }
    Ok(())
}
