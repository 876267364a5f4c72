//! The search for the first fault: table LO with every job using CLO, then table HI behind each switch. All of it is inner.
ghost use Rattle.std.specs.Prelude.{◌≡◌, cond, ◌+◌, ◌-◌, ◌<◌, ◌≤◌, length, replicate, eqb};
ghost use Rattle.basics.specs.Limits.{first_edition};
ghost use Rattle.basics.specs.Units.{units_of};
ghost use Rattle.joblist.specs.Fields.{list_bytes, edge_in};
ghost use Rattle.joblist.specs.Cycle.{Named};
ghost use Rattle.frame.specs.Execution.{state};
ghost use Rattle.frame.specs.Search.{scan};
ghost use Rattle.frame.specs.TwoLevels.{each_switch, search_two};
ghost use Rattle.verdict.specs.FrameOf.{frame_with};
ghost use Rattle.verdict.specs.Inner.{told, chain_of, Steady, Rising};

use crate::count::{Counts, entry_at};
use crate::jobs::{Jobs, fill_square};
use crate::slot::Opening;
use crate::{Fault, PAIRS};
use joblist::MOST_JOBS;

/// What is searched: two tables, in so many slots.
#[derive(Clone, Copy)]
struct Search<'a> {
    jobs: Jobs<'a>,
    lo: &'a [u8],
    hi: &'a [u8],
    slots: usize,
    ghost few: { slots ≤ first_edition.slots },
    ghost covered: { slots ≤ length lo.now },
}

impl<'a> Search<'a> {
    ghost use Rattle.verdict.specs.Searched.{frame_in};

    /// The table of a mode.
    fn table(&self, mode: usize) -> &'a [u8]
        ensures { result.now ≡ cond (eqb mode 0) self.now.lo.now self.now.hi.now }
    {
        if mode == 0 { self.lo } else { self.hi }
    }

    /// The slots from `from` on in one mode, after a switch: a loop yielding the fault by break, the form that the document names.
    fn scan_from(
        &self,
        units: [usize; MOST_JOBS],
        need: &[usize; MOST_JOBS],
        mode: usize,
        from: usize,
        switch: usize,
    ) -> Result<(), Fault>
        requires within { from ≤ self.now.slots }
        requires mode { mode ≤ 1 }
        requires steady { Steady self.now.jobs.list.now self.now.jobs.count mode need.now }
        ensures { result ≡ told (scan (frame_in self.now) (units_of need.now) (self.now.slots - from) from (state mode 0 (chain_of switch) units)) }
    {
        let table = self.table(mode);
        let mut had = units;
        let mut slot = from;
        let mut mode_before = 0;
        'slots: loop {
            let j = entry_at(table, slot);
            let opening = Opening {
                jobs: self.jobs,
                had: &had,
                need,
                slot,
                mode,
                mode_before,
                switch,
            };
            if let Err(fault) = opening.fault_at(j) {
                break Err(fault);
            }
            if self.slots <= slot {
                break Ok(());
            }
            if opening.runs_at(j) {
                had[j] += 1;
            }
            mode_before = mode;
            slot += 1;
        }
    }

    /// Each switch, by rising slot: table HI from the slot after it; again a loop yielding the fault by break.
    /// The entries of table LO are counted once, as the slots go by.
    fn switches_from(&self) -> Result<(), Fault>
        requires { Rising self.now.jobs.list.now self.now.jobs.count }
        ensures { result ≡ told (each_switch (frame_in self.now) self.now.slots 0 (replicate self.now.jobs.count 0)) }
    {
        let mut counts = Counts::at_first(self.lo);
        'switches: loop {
            let slot = counts.slot;
            if self.slots <= slot {
                break Ok(());
            }
            let j = entry_at(self.lo, slot);
            let switches = self.jobs.switches_at(&counts, j);
            counts.move_on();
            if switches {
                let had = self.jobs.units_before(&counts);
                let need = self.jobs.needs_after(&had, j);
                if let Err(fault) = self.scan_from(had, &need, 1, slot + 1, slot) {
                    break Err(fault);
                }
            }
        }
    }
}

/// The whole search. The counts come beside the list, since its caller has read them already.
pub(crate) fn search_tables<'a>(
    list: &'a [u8],
    lo: &'a [u8],
    hi: &'a [u8],
    n: usize,
    m: usize,
    l: usize,
) -> Result<(), Fault>
    requires jobs { n ≤ first_edition.jobs }
    requires slots { l ≤ first_edition.slots }
    requires covered { l ≤ length lo.now }
    requires whole { list_bytes n m ≤ length list.now }
    requires named { Named list.now n m }
    requires rising { Rising list.now n }
    ensures { result ≡ told (search_two (frame_with list.now n l lo.now hi.now (edge_in list.now n m))) }
{
    let mut before = [false; PAIRS];
    fill_square(list, n, m, &mut before);
    let jobs = Jobs {
        list,
        count: n,
        before: &before,
    };
    let search = Search {
        jobs,
        lo,
        hi,
        slots: l,
    };
    search.scan_from(
        [0; MOST_JOBS],
        &jobs.needs_at_first(),
        0,
        0,
        Fault::NO_SWITCH,
    )?;
    search.switches_from()
}
