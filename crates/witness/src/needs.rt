//! What each job needs in the execution that goes wrong. All but the struct is inner.
ghost use Rattle.std.specs.Prelude.{◌≡◌, ◌||◌, ◌+◌, ◌<◌, ◌≤◌, length, replicate, eqb};
ghost use Rattle.basics.specs.Limits.{first_edition};
ghost use Rattle.basics.specs.Marks.{no_switch};
ghost use Rattle.joblist.specs.Fields.{job_at};
ghost use Rattle.witness.specs.Needs.{switch_in, ended, need_of, needs_to, saying};

use joblist::{MOST_JOBS, high_of, ordinary_of};
use verdict::count::{entries_before, entry_at};
use verdict::{Fault, Verdict};

/// The check's answer, and what each job needs in an execution that is bad as it says; zeros where it names no fault, as
/// `witness_of` says.
#[derive(Clone, Copy)]
pub struct Witness {
    pub verdict: Verdict,
    pub needs: [u16; MOST_JOBS],
}

impl Witness {
    // An answer that names no fault.
    pub(crate) fn without_needs(verdict: Verdict) -> Witness
        ensures { result ≡ saying verdict (replicate first_edition.jobs 0) }
    {
        Witness {
            verdict,
            needs: [0; MOST_JOBS],
        }
    }
}

// The switch slot of a fault.
pub(crate) fn switch_in(f: Fault) -> usize
    ensures { result ≡ switch_in f }
{
    match f {
        Fault::Late(_, _, x) | Fault::Early(_, _, x) | Fault::Before(_, _, _, x) => x,
    }
}

// An execution: the list with its jobs, table LO, and the slot of its switch.
#[derive(Clone, Copy)]
pub(crate) struct Execution<'a> {
    pub(crate) list: &'a [u8],
    pub(crate) jobs: usize,
    pub(crate) lo: &'a [u8],
    pub(crate) switch: usize,
    ghost few: { jobs ≤ first_edition.jobs },
    ghost fits: { job_at jobs ≤ length list.now },
    ghost known: { switch ≤ no_switch },
}

impl Execution<'_> {
    // Whether job j needs no more than CLO: there is no switch, or it had ended when the job of the switch slot switched.
    #[tactic(auto, unfolding(crate::specs::Needs::ended))]
    fn keeps_clo(&self, j: usize) -> bool
        requires { j < self.now.jobs }
        ensures { result ≡ (eqb self.now.switch no_switch || ended self.now.list.now self.now.lo.now self.now.switch j) }
    {
        self.switch == Fault::NO_SWITCH
            || (j != entry_at(self.lo, self.switch)
                && ordinary_of(self.list, j) <= entries_before(self.lo, j, self.switch + 1))
    }

    // What job j needs: CLO or CHI, as wide as a budget is.
    #[tactic(auto, unfolding(crate::specs::Needs::need_of, basics::specs::Choice::pick))]
    fn need(&self, j: usize) -> u16
        requires { j < self.now.jobs }
        ensures { result ≡ need_of self.now.list.now self.now.lo.now self.now.switch j }
    {
        if self.keeps_clo(j) {
            ordinary_of(self.list, j) as u16
        } else {
            high_of(self.list, j) as u16
        }
    }

    // What each job needs; zeros past them. By number: what a job needs is read by its number.
    #[tactic(auto, using(crate::proofs::Filled::needs_none, crate::proofs::Filled::needs_more))]
    pub(crate) fn needs(&self) -> [u16; MOST_JOBS]
        ensures { result ≡ needs_to first_edition.jobs self.now.list.now self.now.lo.now self.now.switch self.now.jobs }
    {
        let mut needs = [0; MOST_JOBS];
        for j in 0..self.jobs {
            needs[j] = self.need(j);
        }
        needs
    }
}
