//! The library for firmware in C: each call of the desk, over bytes that the caller lends and one state. include/hut.h declares it.
#![tactic(auto)]

ghost use Rattle.std.specs.Prelude.{◌≡◌, length};
ghost use Rattle.basics.specs.Limits.{first_edition};
ghost use Rattle.verdict.specs.Answer.{check_of};
ghost use Rattle.planfile.specs.Answer.{read_of, write_of, out_after};
ghost use Rattle.logwalk.specs.Answer.{newest_of, previous_of};
ghost use Rattle.planlog.specs.Answer.{append_of, appended_store};
ghost use Rattle.planlog.specs.Writes.{nth_write};
ghost use Rattle.merge.specs.Build.{build_of, out_after as built_into};
ghost use Rattle.parts.specs.Marks.{is_set};
ghost use Rattle.dispatch.specs.State.{step_of};
ghost use Rattle.dispatch.specs.Open.{open_of};
ghost use Rattle.hut.specs.Calls.{check_answer, read_result, write_answer, build_answer, step_answer, opened};
ghost use Rattle.hut.specs.Why.{why_answer, why_needs};
ghost use Rattle.hut.specs.Log.{append_answer, found_answer, log_byte};

use dispatch::state::State;
use joblist::MOST_JOBS;
use machine::step;
use parts::lent::Marks;

mod answers;
mod log;

/// Where; what a place has not got is Answer::ABSENT.
#[repr(C)]
#[derive(Clone, Copy)]
pub struct Place {
    pub fault: usize,
    pub slot: usize,
    pub job: usize,
    pub pred: usize,
    pub switched: usize,
    pub edge: usize,
}

/// The paper's number, 0 for yes, with its place; a step's order; the length of a plan that was built or written.
#[repr(C)]
#[derive(Clone, Copy)]
pub struct Answer {
    pub number: usize,
    pub place: Place,
    pub order: usize,
    pub length: usize,
}

/// What reading answers, with the counts n, m and L on yes.
#[repr(C)]
#[derive(Clone, Copy)]
pub struct ReadResult {
    pub answer: Answer,
    pub jobs: usize,
    pub edges: usize,
    pub slots: usize,
}

/// An answer beside a dispatcher's state. The last field is 0: it stands where C would pad.
#[repr(C)]
#[derive(Clone, Copy)]
pub struct Running {
    pub answer: Answer,
    pub state: State,
    pub rest: u16,
}

/// What the log answers: on yes where the plan begins in the store, and its bytes.
#[repr(C)]
#[derive(Clone, Copy)]
pub struct LogAnswer {
    pub answer: Answer,
    pub at: usize,
    pub bytes: usize,
}

/// A byte to write into a store, and its place there.
#[repr(C)]
#[derive(Clone, Copy)]
pub struct LogByte {
    pub place: usize,
    pub byte: usize,
}

impl Answer {
    /// What an answer has not got; as a switch slot it is document 01's own mark of no switch.
    pub const ABSENT: usize = verdict::Fault::NO_SWITCH;
}

/// The check of a list and two tables.
#[unsafe(no_mangle)]
pub extern "C" fn hut_check(list: &[u8], lo: &[u8], hi: &[u8]) -> Answer
    ensures { result ≡ check_answer (check_of first_edition list.now lo.now hi.now) }
{
    verdict::check(list, lo, hi).into()
}

/// What the bytes are: a plan, with its counts, or why not.
#[unsafe(no_mangle)]
pub extern "C" fn hut_read(plan: &[u8]) -> ReadResult
    ensures { result ≡ read_result (read_of first_edition plan.now) }
{
    planfile::read(plan).into()
}

/// The plan of a list and two tables, at the front of `out`; no byte of it changes where the answer is no.
#[unsafe(no_mangle)]
pub extern "C" fn hut_write(list: &[u8], lo: &[u8], hi: &[u8], out: &mut [u8]) -> Answer
    ensures { (result ≡ write_answer (write_of first_edition list.now lo.now hi.now (length out.old)))
        × (out.new ≡ out_after first_edition list.now lo.now hi.now out.old) }
{
    planfile::write(list, lo, hi, out).into()
}

/// The plan that the merge method makes of a list, at the front of `out`; no byte of it changes where the answer is no.
#[unsafe(no_mangle)]
pub extern "C" fn hut_build(list: &[u8], out: &mut [u8]) -> Answer
    ensures { (result ≡ build_answer (build_of first_edition list.now (length out.old)))
        × (out.new ≡ built_into first_edition list.now out.old) }
{
    merge::build(list, out).into()
}

/// A state for the plan in the bytes, whose next tick is `first`: by value, for C to keep. All zero where the answer is no.
#[tactic(auto, unfolding(crate::specs::Calls::opened))]
#[unsafe(no_mangle)]
pub extern "C" fn hut_open(plan: &[u8], first: u16) -> Running
    ensures { result ≡ opened (open_of first_edition plan.now first) }
{
    let o = dispatch::open::open(plan, first);
    let answer = o.answer;
    let state = o.state;
    Running {
        answer: answer.into(),
        state,
        rest: 0,
    }
}

/// One step of the state that C keeps, in its place: no array is copied. An end is signalled by any mark but 0.
#[tactic(auto, unfolding(parts::specs::Marks::is_set))]
#[unsafe(no_mangle)]
pub extern "C" fn hut_step(s: &mut State, tick: u16, ended: u8) -> Answer
    ensures { (result ≡ step_answer (step_of first_edition s.old tick (is_set ended)).answer) × (s.new ≡ (step_of first_edition s.old tick (is_set ended)).state) }
{
    let mut marks = Marks {
        units: &mut s.units,
        done: &mut s.done,
        cut: &mut s.cut,
    };
    let turned = step::step(s.plan.parts(), s.head, &mut marks, tick, ended != 0);
    s.head = turned.head;
    turned.answer.into()
}

/// The check, and behind a fault what each job needs in an execution that goes wrong as it says: every entry of `needs`.
#[tactic(auto, unfolding(crate::specs::Why::why_answer))]
#[unsafe(no_mangle)]
pub extern "C" fn hut_why(list: &[u8], lo: &[u8], hi: &[u8], needs: &mut [u16; MOST_JOBS]) -> Answer
    ensures { (result ≡ why_answer first_edition list.now lo.now hi.now)
        × (needs.new ≡ why_needs first_edition list.now lo.now hi.now) }
{
    let w = witness::witness(list, lo, hi);
    let each = w.needs;
    *needs = each;
    w.verdict.into()
}

/// Appends a plan to the log in a store: it is zeroed from its last byte back to the end of the last whole plan, and the plan written forwards. No byte changes where the answer is no.
#[unsafe(no_mangle)]
pub extern "C" fn hut_log_append(store: &mut [u8], plan: &[u8]) -> LogAnswer
    ensures { (result ≡ append_answer (append_of first_edition store.old plan.now) (length plan.now))
        × (store.new ≡ appended_store first_edition store.old plan.now) }
{
    LogAnswer::of_append(planlog::append(store, plan), plan.len())
}

/// The newest whole plan of a store.
#[unsafe(no_mangle)]
pub extern "C" fn hut_log_newest(store: &[u8]) -> LogAnswer
    ensures { result ≡ found_answer (newest_of first_edition store.now) }
{
    logwalk::newest(store).into()
}

/// The plan that ends at `end`: from the newest one's end, and then from each start, all of them newest first.
#[unsafe(no_mangle)]
pub extern "C" fn hut_log_previous(store: &[u8], end: usize) -> LogAnswer
    ensures { result ≡ found_answer (previous_of first_edition store.now end) }
{
    logwalk::previous(store, end).into()
}

/// What `hut_log_append` would answer. It only reads.
#[unsafe(no_mangle)]
pub extern "C" fn hut_log_room(store: &[u8], plan: &[u8]) -> LogAnswer
    ensures { result ≡ append_answer (append_of first_edition store.now plan.now) (length plan.now) }
{
    LogAnswer::of_append(planlog::room_for(store, plan), plan.len())
}

/// Write k of an append that puts the plan at `at` in a store of so many bytes; a place past the store where there is none.
#[unsafe(no_mangle)]
pub extern "C" fn hut_log_write(size: usize, at: usize, plan: &[u8], k: usize) -> LogByte
    ensures { result ≡ log_byte size (nth_write size at plan.now k) }
{
    LogByte::of(size, planlog::nth_write(size, at, plan, k))
}
