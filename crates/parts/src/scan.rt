//! The tests on a state's parts: row 37 part by part, those of booking, and those of the order.
ghost use Rattle.std.specs.Prelude.{◌≡◌, ℕ, ◌*◌, ◌<◌, ◌≤◌, ◌&&◌, ◌≢◌, nat_le, slice_index, length};
ghost use Rattle.std.specs.List.{list_all};
ghost use Rattle.basics.specs.Limits.{first_edition};
ghost use Rattle.basics.specs.Marks.{idle};
ghost use Rattle.parts.specs.Scan.{sizes_ok, byte_ok, tables_ok, edges_ok, job_ok, jobs_ok, units_ok, ended_before, preds_done, named_in, bump, past_high, late_low, may_run, choice_in};

use crate::edges::Edges;
use crate::plan::{ARRIVAL, CHI, CLO, DEADLINE, ENDS, ENTRIES, JOBS, LEVEL, Plan, number};
use joblist::{MOST_EDGES, MOST_JOBS, MOST_SLOTS};

// The largest budget, and where a count of units stops.
const BUDGET: u16 = joblist::MOST_BUDGET as u16;

/// L, n and m in their ranges.
#[tactic(auto, unfolding(crate::specs::Scan::sizes_ok, basics::specs::Below::all_of))]
pub fn sizes_ok(len: usize, n: usize, m: usize) -> bool
    ensures { result ≡ sizes_ok first_edition len n m }
{
    1 <= len && len <= MOST_SLOTS && 1 <= n && n <= MOST_JOBS && m <= MOST_EDGES
}

/// Idle, or a job's number.
#[tactic(auto, unfolding(crate::specs::Scan::byte_ok))]
pub fn byte_ok(n: usize, x: u8) -> bool
    ensures { result ≡ byte_ok n x }
{
    x == Plan::IDLE || usize::from(x) < n
}

/// Both tables, at each slot: the largest of what their bytes stand at, which is 0 for idle, and one more than a job's number. It
/// is looked for to the last slot, so that a processor takes many slots at once.
pub fn tables_ok(tables: &[u8; ENTRIES], len: usize, n: usize) -> bool
    requires { len ≤ first_edition.slots }
    ensures { result ≡ tables_ok first_edition tables.now len n }
{
    let worst = (0..len).fold(0u8, |worst, t| {
        worst
            .max(tables[t].wrapping_add(1))
            .max(tables[MOST_SLOTS + t].wrapping_add(1))
    });
    usize::from(worst) <= n
}

/// Both ends of each edge, likewise.
pub fn edges_ok(edges: &[u8; ENDS], m: usize, n: usize) -> bool
    requires { (m ≤ first_edition.edges) × (1 ≤ n) }
    ensures { result ≡ edges_ok edges.now m n }
{
    let worst = edges[..2 * m].iter().fold(0, |worst: u8, x| worst.max(*x));
    usize::from(worst) < n
}

// Level and budgets of job j.
#[tactic(auto, unfolding(crate::specs::Scan::job_ok, basics::specs::Below::all_of))]
fn job_ok(jobs: &[u16; JOBS], j: usize) -> bool
    requires { j < first_edition.jobs }
    ensures { result ≡ job_ok first_edition jobs.now j }
{
    number(jobs, j, LEVEL) <= Plan::HIGH
        && number(jobs, j, CLO) <= BUDGET
        && number(jobs, j, CHI) <= BUDGET
}

/// Level and budgets of each job.
pub fn jobs_ok(jobs: &[u16; JOBS], n: usize) -> bool
    requires { n ≤ first_edition.jobs }
    ensures { result ≡ jobs_ok first_edition jobs.now n }
{
    (0..n).all(|j| job_ok(jobs, j))
}

/// The unit count of each job.
pub fn units_ok(units: &[u16; MOST_JOBS], n: usize) -> bool
    requires { n ≤ first_edition.jobs }
    ensures { result ≡ units_ok first_edition units.now n }
{
    units[..n].iter().all(|u| *u <= BUDGET)
}

// Edge e ends at another job than j, or starts at a finished one.
#[tactic(auto, unfolding(crate::specs::Scan::ended_before, crate::specs::Marks::is_set))]
fn ended_before<'a, 'b>(edges: &'a [u8; ENDS], done: &'b [u8; MOST_JOBS], j: u8, e: usize) -> bool
    requires e_lt_edges { e < first_edition.edges }
    requires from_job { slice_index edges.now (2 * e) < first_edition.jobs }
    ensures { result ≡ ended_before edges.now done.now j e }
{
    edges[2 * e + 1] != j || done[usize::from(edges[2 * e])] != 0
}

/// No edge to job j starts at an unfinished job.
pub fn preds_done<'a, 'b>(edges: Edges<'a>, done: &'b [u8; MOST_JOBS], j: u8) -> bool
    ensures { result ≡ preds_done edges.entry.m edges.entry.ends.now done.now j }
{
    (0..edges.m).all(|e| ended_before(edges.ends, done, j, e))
}

/// The job that the mode's table names at the slot.
#[tactic(auto, unfolding(crate::specs::Scan::named_in, basics::specs::Choice::pick, crate::specs::Marks::is_set))]
pub fn named(tables: &[u8; ENTRIES], slot: usize, high: u8) -> u8
    requires { slot < first_edition.slots }
    ensures { result ≡ named_in first_edition tables.now slot high }
{
    if high != 0 {
        tables[MOST_SLOTS + slot]
    } else {
        tables[slot]
    }
}

/// One unit more; a count stops at the largest budget, and one past it stays.
#[tactic(auto, unfolding(crate::specs::Scan::bump, basics::specs::Choice::pick))]
pub fn bumped(u: u16) -> u16
    ensures { result ≡ bump first_edition u }
{
    if u < BUDGET { u + 1 } else { u }
}

/// 35: whether job j, not ended, is high and with one unit more at or past CHI.
#[tactic(auto, unfolding(crate::specs::Scan::past_high))]
pub fn past_high<'a, 'b>(
    jobs: &'a [u16; JOBS],
    units: &'b [u16; MOST_JOBS],
    j: usize,
    ended: bool,
) -> bool
    requires { j < first_edition.jobs }
    ensures { result ≡ past_high first_edition jobs.now units.now j ended }
{
    !ended && number(jobs, j, LEVEL) == Plan::HIGH && number(jobs, j, CHI) <= bumped(units[j])
}

// Whether job j is low, in HI, at or past its deadline.
#[tactic(auto, unfolding(crate::specs::Scan::late_low, crate::specs::Marks::is_set))]
fn late_low(jobs: &[u16; JOBS], slot: u16, high: u8, j: usize) -> bool
    requires { j < first_edition.jobs }
    ensures { result ≡ late_low jobs.now slot high j }
{
    high != 0 && number(jobs, j, LEVEL) != Plan::HIGH && number(jobs, j, DEADLINE) <= slot
}

// Whether job x may run in the slot. The marks come one by one: an array behind a `&mut` in a lent struct gets no proof.
#[tactic(auto, unfolding(crate::specs::Scan::may_run, basics::specs::Below::all_of, crate::specs::Marks::is_set))]
fn may_run<'a, 'b>(
    jobs: &'a [u16; JOBS],
    edges: Edges<'a>,
    x: u8,
    slot: u16,
    high: u8,
    done: &'b [u8; MOST_JOBS],
    cut: &'b [u8; MOST_JOBS],
) -> bool
    requires { x < first_edition.jobs }
    ensures { result ≡ may_run edges.entry.m jobs.now edges.entry.ends.now x slot high done.now cut.now }
{
    let j = usize::from(x);
    done[j] == 0
        && cut[j] == 0
        && number(jobs, j, ARRIVAL) <= slot
        && !late_low(jobs, slot, high, j)
        && preds_done(edges, done, x)
}

/// The named job if it may run, else idle. The marks come one by one, as in `may_run`.
#[tactic(auto, unfolding(crate::specs::Scan::choice_in, basics::specs::Choice::pick))]
pub fn choice<'a, 'b>(
    jobs: &'a [u16; JOBS],
    edges: Edges<'a>,
    named: u8,
    slot: u16,
    high: u8,
    done: &'b [u8; MOST_JOBS],
    cut: &'b [u8; MOST_JOBS],
) -> u8
    requires { (named ≢ idle) → named < first_edition.jobs }
    ensures { result ≡ choice_in edges.entry.m jobs.now edges.entry.ends.now named slot high done.now cut.now }
{
    if named == Plan::IDLE {
        Plan::IDLE
    } else if may_run(jobs, edges, named, slot, high, done, cut) {
        named
    } else {
        Plan::IDLE
    }
}
