//! What one slot shows: the fault at its opening, and whether the named job runs in it. All of it is inner.
ghost use Rattle.std.specs.Prelude.{◌≡◌, true, ◌&&◌, ◌<◌, eqb, leb, ltb};
ghost use Rattle.basics.specs.Limits.{first_edition};
ghost use Rattle.basics.specs.Units.{units_of};
ghost use Rattle.joblist.specs.Fields.{arrival, deadline, level};
ghost use Rattle.frame.specs.Execution.{runs, waits_for};
ghost use Rattle.frame.specs.Search.{late_job, owed, fault_of};
ghost use Rattle.verdict.specs.Inner.{told, first_of};

use crate::Fault;
use crate::jobs::Jobs;
use joblist::{MOST_JOBS, arrival_of, deadline_of, level_of};

/// A slot at its opening: the units that each job has had and those that it needs, the mode, that of the slot before, and the switch slot.
/// Modes are numbers, and units stand in two arrays, as in the definitions of an execution, which hold for any number of levels.
#[derive(Clone, Copy)]
pub(crate) struct Opening<'a> {
    pub(crate) jobs: Jobs<'a>,
    pub(crate) had: &'a [usize; MOST_JOBS],
    pub(crate) need: &'a [usize; MOST_JOBS],
    pub(crate) slot: usize,
    pub(crate) mode: usize,
    pub(crate) mode_before: usize,
    pub(crate) switch: usize,
}

impl Opening<'_> {
    ghost use Rattle.verdict.specs.Opening.{frame_at, need_at, state_at};

    /// Whether job i is unfinished.
    fn is_open(&self, i: usize) -> bool
        requires { i < self.now.jobs.count }
        ensures { result ≡ ltb (units_of self.now.had.now i) (need_at self.now i) }
    {
        self.had[i] < self.need[i]
    }

    /// Whether job i has its deadline here, counts and is unfinished.
    fn is_late(&self, i: usize) -> bool
        requires { i < self.now.jobs.count }
        ensures { result ≡ (eqb (deadline self.now.jobs.list.now i) self.now.slot && (leb self.now.mode_before (level self.now.jobs.list.now i) && ltb (units_of self.now.had.now i) (need_at self.now i))) }
    {
        deadline_of(self.jobs.list, i) == self.slot
            && self.mode_before <= level_of(self.jobs.list, i)
            && self.is_open(i)
    }

    /// The lowest job that is late.
    fn late_job(&self) -> Option<usize>
        ensures { result ≡ first_of (late_job (frame_at self.now) (need_at self.now) self.now.slot self.now.mode_before self.now.had.now) }
    {
        (0..self.jobs.count).find(|&i| self.is_late(i))
    }

    /// The lowest predecessor of j that is unfinished.
    fn waits_for(&self, j: usize) -> Option<usize>
        requires { j < first_edition.jobs }
        ensures { result ≡ first_of (waits_for (frame_at self.now) (need_at self.now) self.now.had.now j) }
    {
        (0..self.jobs.count).find(|&p| self.jobs.before[MOST_JOBS * j + p] && self.is_open(p))
    }

    /// Whether the mode owes the slot to j, which is then a job.
    #[tactic(auto, unfolding(frame::specs::Search::owed))]
    fn is_owed(&self, j: usize) -> bool
        ensures job { result ≡ true → j < self.now.jobs.count }
        ensures owed { result ≡ owed (frame_at self.now) (need_at self.now) self.now.mode self.now.had.now j }
    {
        j < self.jobs.count && self.mode <= level_of(self.jobs.list, j) && self.is_open(j)
    }

    /// The first fault, where j is named: a late job, or j too early or before a predecessor.
    pub(crate) fn fault_at(&self, j: usize) -> Result<(), Fault>
        ensures { result ≡ told (fault_of (frame_at self.now) (need_at self.now) self.now.slot (state_at self.now) j) }
    {
        if let Some(i) = self.late_job() {
            return Err(Fault::Late(self.slot, i, self.switch));
        }
        if !self.is_owed(j) {
            return Ok(());
        }
        if self.slot < arrival_of(self.jobs.list, j) {
            return Err(Fault::Early(self.slot, j, self.switch));
        }
        match self.waits_for(j) {
            Some(p) => Err(Fault::Before(self.slot, j, p, self.switch)),
            None => Ok(()),
        }
    }

    /// Whether the named job j runs; one that does is a job, and has units left.
    #[tactic(auto, using(crate::proofs::Find::none_is), unfolding(frame::specs::Execution::runs, frame::specs::Execution::ready))]
    pub(crate) fn runs_at(&self, j: usize) -> bool
        ensures runs { result ≡ runs (frame_at self.now) (need_at self.now) self.now.slot self.now.mode self.now.had.now j }
        ensures left { result ≡ true → (j < self.now.jobs.count) × (units_of self.now.had.now j < need_at self.now j) }
    {
        j < self.jobs.count
            && self.is_open(j)
            && (self.mode <= level_of(self.jobs.list, j)
                || (arrival_of(self.jobs.list, j) <= self.slot
                    && self.slot < deadline_of(self.jobs.list, j)
                    && self.waits_for(j).is_none()))
    }
}
