//! Opening: the bytes of a plan that the reader accepts, to a fresh state.
ghost use Rattle.std.specs.Prelude.{◌≡◌, ℕ, ◌+◌, ◌*◌, ◌≤◌, ◌++◌, length, get_or};
ghost use Rattle.basics.specs.Bytes.{u16_at};
ghost use Rattle.basics.specs.Limits.{first_edition};
ghost use Rattle.joblist.specs.Fields.{head_bytes, jobs, edges, slots, job_at, list_bytes};
ghost use Rattle.dispatch.specs.Open.{entries, jobs_of, edges_of, tables_of, fields_of, open_of};

use crate::state::State;
use joblist::{HEAD_BYTES, JOB_BYTES, MOST_SLOTS};
use parts::plan::{Counts, ENDS, ENTRIES, JOBS, NUMBERS, Plan};
use planfile::{ReadWhy, Shape};

/// What opening answers. A state holds arrays, so it stands beside the answer, all zero where that is a refusal: `open_of` fixes
/// both.
#[derive(Clone, Copy)]
pub struct Opened {
    pub answer: Result<Shape, ReadWhy>,
    pub state: State,
}

// The numbers of n jobs, 16 bits each. By place: two bytes make a number, which no copy does, and pairs of bytes beside numbers
// read no plainer. Never inlined, nor are the tables: with both inlined opening takes 23,000 bytes of stack on aarch64 and riscv64,
// which is over `HUT_STACK_OPEN`; with the whole of `fields` out of line it copies the plan once more.
#[inline(never)]
#[tactic(auto, using(crate::proofs::Entries::entries_none, crate::proofs::Entries::entries_turn, crate::proofs::Entries::entries_done), unfolding(crate::specs::Open::jobs_of))]
fn numbers(list: &[u8], n: usize) -> [u16; JOBS]
    requires { (n ≤ first_edition.jobs) × (job_at n ≤ length list.now) }
    ensures { result ≡ jobs_of first_edition list.now n }
{
    let mut out = [0u16; JOBS];
    for i in 0..NUMBERS * n {
        out[i] = joblist::u16_at(list, HEAD_BYTES + 2 * i) as u16;
    }
    out
}

// The ends of m edges after n jobs. By place, here and below: `copy_from_slice` was tried, and then opening takes 6,700 bytes of stack
// more, which is over `HUT_STACK_OPEN`.
#[tactic(auto, using(crate::proofs::Entries::entries_none, crate::proofs::Entries::entries_turn, crate::proofs::Entries::entries_done), unfolding(crate::specs::Open::edges_of))]
fn ends(list: &[u8], n: usize, m: usize) -> [u8; ENDS]
    requires { (n ≤ first_edition.jobs) × (m ≤ first_edition.edges) × (list_bytes n m ≤ length list.now) }
    ensures { result ≡ edges_of first_edition list.now n m }
{
    let mut out = [0u8; ENDS];
    for i in 0..2 * m {
        out[i] = list[HEAD_BYTES + JOB_BYTES * n + i];
    }
    out
}

// Both tables, of n slots each. Never inlined, as the numbers.
#[inline(never)]
#[tactic(auto, using(crate::proofs::Entries::both_none, crate::proofs::Entries::both_turn, crate::proofs::Entries::both_done), unfolding(crate::specs::Open::tables_of))]
fn tables(lo: &[u8], hi: &[u8], n: usize) -> [u8; ENTRIES]
    requires { (n ≤ first_edition.slots) × (n ≤ length lo.now) × (n ≤ length hi.now) }
    ensures { result ≡ tables_of first_edition lo.now hi.now n }
{
    let mut out = [0u8; ENTRIES];
    for t in 0..n {
        out[t] = lo[t];
        out[MOST_SLOTS + t] = hi[t];
    }
    out
}

// A plan's fields, from its list and its tables.
#[tactic(auto, using(crate::proofs::Opened::fields_are))]
fn fields(list: &[u8], lo: &[u8], hi: &[u8]) -> Plan
    requires { (jobs list.now ≤ first_edition.jobs) × (edges list.now ≤ first_edition.edges) × (slots list.now ≤ first_edition.slots) × (list_bytes (jobs list.now) (edges list.now) ≤ length list.now)
        × (slots list.now ≤ length lo.now) × (slots list.now ≤ length hi.now) }
    ensures { result ≡ fields_of first_edition list.now lo.now hi.now }
{
    let n = joblist::jobs_of(list);
    let m = joblist::edges_of(list);
    let len = joblist::slots_of(list);
    let jobs = numbers(list, n);
    let edges = ends(list, n, m);
    let tables = tables(lo, hi, len);
    Plan {
        counts: Counts {
            len: len as u16,
            n: n as u16,
            m: m as u16,
        },
        jobs,
        edges,
        tables,
    }
}

/// A plan's bytes and the first tick: the reader's answer, with a fresh state, or with the all-zero state where it refuses.
#[tactic(auto, using(crate::proofs::Opened::fields_fit, crate::proofs::Opened::open_yes, crate::proofs::Opened::open_no))]
pub fn open(plan: &[u8], first: u16) -> Opened
    ensures { result ≡ open_of first_edition plan.now first }
{
    // each arm makes the whole answer: a state that is named before it would take its stack twice
    match planfile::read(plan) {
        Ok(shape) => {
            let list = planfile::list_of(plan);
            let low = planfile::low_of(plan);
            let high = planfile::high_of(plan);
            let fields = fields(list, low, high);
            let state = State::fresh(fields, first);
            Opened {
                answer: Ok(shape),
                state,
            }
        }
        Err(why) => {
            let state = State::zero();
            Opened {
                answer: Err(why),
                state,
            }
        }
    }
}
