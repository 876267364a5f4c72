//! The jobs of a list as the search sees them: what each needs, and what each has had in table LO. All of it is inner.
ghost use Rattle.std.specs.Prelude.{◌≡◌, [], cond, not, ◌&&◌, ℕ, ◌+◌, ◌<◌, ◌≤◌, min, length, leb};
ghost use Rattle.basics.specs.Limits.{first_edition};
ghost use Rattle.basics.specs.Units.{units_of};
ghost use Rattle.joblist.specs.Fields.{job_at, list_bytes, ordinary, edge_in};
ghost use Rattle.joblist.specs.Cycle.{Named};
ghost use Rattle.frame.specs.TwoLevels.{needs_hi};
ghost use Rattle.verdict.specs.Count.{entries_in};
ghost use Rattle.verdict.specs.Inner.{edge_at, square, switches_at};

use crate::PAIRS;
use crate::count::Counts;
use joblist::{MOST_JOBS, edge_from, edge_to, high_of, level_of, ordinary_of};

/// The jobs of a list, where they stand in its bytes, and its edges as a square of bits: in the row of q, whether p comes before it.
/// The square is one flat array, as `edge_at` reads it.
#[derive(Clone, Copy)]
pub(crate) struct Jobs<'a> {
    pub(crate) list: &'a [u8],
    pub(crate) count: usize,
    pub(crate) before: &'a [bool; PAIRS],
    pub(crate) ghost few: { count ≤ first_edition.jobs },
    pub(crate) ghost whole: { job_at count ≤ length list.now },
}

/// Fills the edges as a square of bits, edge by edge: their ends stand at places in the bytes. The square is lent, since handing it
/// back would take its 4,096 bytes of stack twice.
pub(crate) fn fill_square(list: &[u8], n: usize, m: usize, square: &mut [bool; PAIRS])
    requires few { n ≤ first_edition.jobs }
    requires whole { list_bytes n m ≤ length list.now }
    requires named { Named list.now n m }
    ensures { (p q : ℕ) → p < n → q < n → edge_at square.new p q ≡ edge_in list.now n m p q }
{
    *square = [false; PAIRS];
    for e in 0..m {
        let p = edge_from(list, n, e);
        let q = edge_to(list, n, e);
        square[MOST_JOBS * q + p] = true;
    }
}

/// What a job needs after a switch, which is its own or another's.
fn need_after(own: bool, had: usize, clo: usize, chi: usize) -> usize
    ensures { result ≡ cond (not own && leb clo had) clo chi }
{
    if !own && clo <= had { clo } else { chi }
}

impl Jobs<'_> {
    // Here and below by number: of an array that is longer than there are jobs, each place up to their count is filled by what the
    // list has there.
    /// What each job needs in LO.
    pub(crate) fn needs_at_first(&self) -> [usize; MOST_JOBS]
        ensures { (i : ℕ) → i < self.now.count → units_of result i ≡ ordinary self.now.list.now i }
    {
        let mut need = [0; MOST_JOBS];
        for i in 0..self.count {
            need[i] = ordinary_of(self.list, i);
        }
        need
    }

    /// The units that each job has had in table LO so far, where each uses CLO and none has switched.
    pub(crate) fn units_before(&self, lo: &Counts) -> [usize; MOST_JOBS]
        ensures { (i : ℕ) → i < self.now.count → units_of result i ≡ min (ordinary self.now.list.now i) (entries_in lo.now.table.now i lo.now.slot) }
    {
        let mut had = [0; MOST_JOBS];
        for i in 0..self.count {
            had[i] = ordinary_of(self.list, i).min(lo.entries_so_far(i));
        }
        had
    }

    /// What each job needs after k switched.
    pub(crate) fn needs_after(&self, had: &[usize; MOST_JOBS], k: usize) -> [usize; MOST_JOBS]
        ensures { (i : ℕ) → i < self.now.count → units_of result i ≡ needs_hi (square self.now.list.now self.now.count []) had.now k i }
    {
        let mut need = [0; MOST_JOBS];
        for i in 0..self.count {
            need[i] = need_after(
                i == k,
                had[i],
                ordinary_of(self.list, i),
                high_of(self.list, i),
            );
        }
        need
    }

    /// Whether the slot has a switch: its entry j in table LO is a high job with CHI > CLO at its CLO-th unit.
    pub(crate) fn switches_at(&self, lo: &Counts, j: usize) -> bool
        requires { lo.now.slot < first_edition.slots }
        ensures { result ≡ switches_at self.now.list.now self.now.count lo.now.table.now lo.now.slot j }
    {
        j < self.count
            && level_of(self.list, j) == 1
            && ordinary_of(self.list, j) < high_of(self.list, j)
            && lo.entries_so_far(j) + 1 == ordinary_of(self.list, j)
    }
}
