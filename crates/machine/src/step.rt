//! A step over a state's parts: the plan's arrays are lent to be read, the head goes by value and comes back, and the counts
//! and marks of the jobs change where they stand.
ghost use Rattle.std.specs.Prelude.{◌≡◌, ◌<◌, ◌≤◌, true, ◌≢◌};
ghost use Rattle.basics.specs.Limits.{first_edition};
ghost use Rattle.basics.specs.Marks.{idle};
ghost use Rattle.parts.specs.Marks.{SameLoan};
ghost use Rattle.parts.specs.Plan.{plan_of};
ghost use Rattle.machine.specs.Run.{lent_run};
ghost use Rattle.machine.specs.Machine.{plan_ok, run_ok, sound_on, tick_test, end_test, live_test, ran_with, next_of, step_on};

use crate::answer::Why;
use crate::head::{Head, Turned};
use crate::tick;
use crate::tick::Tick;
use joblist::MOST_JOBS;
use parts::edges::Edges;
use parts::lent::{Marks, PlanParts};
use parts::plan::{Counts, JOBS, Plan};
use parts::scan;

// 37, the plan's part.
#[tactic(auto, using(crate::proofs::Facts::sizes_facts), unfolding(crate::specs::Machine::plan_ok, basics::specs::Below::all_of))]
fn plan_ok(plan: PlanParts<'_>) -> bool
    ensures { result ≡ plan_ok first_edition (plan_of plan.entry) }
{
    let len = usize::from(plan.counts.len);
    let n = usize::from(plan.counts.n);
    let m = usize::from(plan.counts.m);
    scan::sizes_ok(len, n, m)
        && scan::tables_ok(plan.tables, len, n)
        && scan::edges_ok(plan.edges, m, n)
        && scan::jobs_ok(plan.jobs, n)
}

// 37, the run's part: L is above the slot, and the job ordered last and the unit counts are in their ranges.
#[tactic(auto, unfolding(crate::specs::Machine::run_ok, basics::specs::Below::all_of))]
fn run_ok(counts: Counts, head: Head, units: &[u16; MOST_JOBS]) -> bool
    requires { counts.n ≤ first_edition.jobs }
    ensures { result ≡ run_ok first_edition counts head units.now }
{
    let n = usize::from(counts.n);
    head.slot < counts.len && scan::byte_ok(n, head.ordered) && scan::units_ok(units, n)
}

// 34 and 35: the end of a slot in which `ordered` ran.
fn end_test<'a, 'b>(
    jobs: &'a [u16; JOBS],
    ordered: u8,
    units: &'b [u16; MOST_JOBS],
    ended: bool,
) -> Result<(), Why>
    requires { (ordered ≢ idle) → ordered < first_edition.jobs }
    ensures { result ≡ end_test first_edition jobs.now ordered units.now ended }
{
    if ordered == Plan::IDLE {
        if ended {
            return Err(Why::NoJob);
        }
        return Ok(());
    }
    if scan::past_high(jobs, units, ordered as usize, ended) {
        return Err(Why::PastHigh(ordered));
    }
    Ok(())
}

// What a tick that is not the next is refused for.
#[tactic(auto, unfolding(crate::specs::Machine::tick_test))]
fn tick_test(said: Tick) -> Result<(), Why>
    ensures { result ≡ tick_test said }
{
    match said {
        Tick::Next => Ok(()),
        Tick::Same => Err(Why::SameTick),
        Tick::Lost => Err(Why::TicksLost),
        Tick::Half => Err(Why::HalfAway),
        Tick::Stale => Err(Why::StaleTick),
    }
}

// What is tested once the state is sound: 32, the tick, 34 and 35.
fn live_test<'a, 'b>(
    jobs: &'a [u16; JOBS],
    head: Head,
    units: &'b [u16; MOST_JOBS],
    tick: u16,
    ended: bool,
) -> Result<(), Why>
    requires { (head.ordered ≢ idle) → head.ordered < first_edition.jobs }
    ensures { result ≡ live_test first_edition jobs.now head units.now tick ended }
{
    if head.halted != 0 {
        return Err(Why::Halted);
    }
    tick_test(tick::said(head.last, tick))?;
    end_test(jobs, head.ordered, units, ended)
}

// 37: whether every part that a step goes by is in its range.
#[tactic(auto, using(crate::proofs::Facts::plan_facts), unfolding(crate::specs::Machine::sound_on))]
fn sound<'a, 'b>(plan: PlanParts<'a>, head: Head, units: &'b [u16; MOST_JOBS]) -> bool
    ensures { result ≡ sound_on first_edition (plan_of plan.entry) head units.now }
{
    plan_ok(plan) && run_ok(plan.counts, head, units)
}

// The next slot: the last one is booked, the tick taken, and the order given.
fn next_slot<'a, 'b, 'c>(
    plan: PlanParts<'a>,
    head: Head,
    marks: &'b mut Marks<'c>,
    tick: u16,
    ended: bool,
) -> Turned
    requires { sound_on first_edition (plan_of plan) head marks.old.units.now ≡ true }
    ensures is { ran_with result marks.new ≡ next_of first_edition (plan_of plan.entry) (lent_run head marks.old) tick ended }
    ensures same_loan { SameLoan marks.old marks.new }
{
    let booked = head.book(plan.jobs, marks, ended);
    let moved = booked.move_on(plan.counts.len, marks, tick);
    let named = scan::named(plan.tables, moved.slot as usize, moved.high);
    let edges = Edges {
        ends: plan.edges,
        m: plan.counts.m as usize,
    };
    moved.order(plan.jobs, edges, named, marks)
}

/// One tick, with whether the job ordered last signalled its end.
pub fn step<'a, 'b, 'c>(
    plan: PlanParts<'a>,
    head: Head,
    marks: &'b mut Marks<'c>,
    tick: u16,
    ended: bool,
) -> Turned
    ensures is { ran_with result marks.new ≡ step_on first_edition (plan_of plan.entry) (lent_run head marks.old) tick ended }
    ensures same_loan { SameLoan marks.old marks.new }
{
    if !sound(plan, head, marks.units) {
        return head.refuse(Why::BadState);
    }
    match live_test(plan.jobs, head, marks.units, tick, ended) {
        Ok(()) => next_slot(plan, head, marks, tick, ended),
        Err(why) => head.refuse(why),
    }
}
