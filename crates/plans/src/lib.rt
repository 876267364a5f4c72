//! What building, writing and checking say, on a page. What the calls promise is proved where they are made, and no page needs
//! it.
#![tactic(auto)]

use drawing::plan::Plan;
use drawing::put_counts;
use joblist::{EDGE_BYTES, HEAD_BYTES, JOB_BYTES, MOST_EDGES, MOST_JOBS, MOST_SLOTS};
use page::Page;
use planfile::{ReadWhy, TRAILER_BYTES, high_of, list_of, low_of, read};
use refusal::Refusal;
use std::alloc::{AllocError, Global};
use text::part;
use verdict::Objection;
use words::{At, No};

/// No plan has more bytes: the largest list, two tables and the trailer.
pub const PLAN_ROOM: usize = HEAD_BYTES
    + JOB_BYTES * MOST_JOBS
    + EDGE_BYTES * MOST_EDGES
    + 2 * MOST_SLOTS
    + TRAILER_BYTES;

/// The bytes of a plan with these parts, whatever the check says of them.
pub fn join(alloc: Global, list: &[u8], lo: &[u8], hi: &[u8]) -> Result<Vec<u8>, AllocError> {
    let mut bytes = Vec::new(alloc);
    bytes.extend_from_slice(list)?;
    bytes.extend_from_slice(lo)?;
    bytes.extend_from_slice(hi)?;
    bytes.extend_from_slice(&[0; TRAILER_BYTES])?;
    planfile::put_plan(list, lo, hi, &mut bytes);
    Ok(bytes)
}

// What was made at the front of a room; why nothing was.
fn front<'a, W: Refusal>(room: &'a [u8], made: Result<usize, W>) -> Result<&'a [u8], No>
where
    At: From<W::Place>,
{
    match made {
        Ok(size) => Ok(part(room, 0, size)),
        Err(w) => Err(No::of(w)),
    }
}

/// Builds the plan of a list, at the front of a room.
pub fn build<'a>(list: &[u8], room: &'a mut [u8]) -> Result<&'a [u8], No> {
    let made = merge::build(list, room);
    front(room, made)
}

/// Writes the plan of the parts that were joined, at the front of a room.
pub fn write<'a>(plan: &[u8], room: &'a mut [u8]) -> Result<&'a [u8], No> {
    let made = planfile::write(list_of(plan), low_of(plan), high_of(plan), room);
    front(room, made)
}

/// Whether bytes are a list; why not.
pub fn check_list(list: &[u8]) -> Result<(), No> {
    joblist::check_list(list).map_err(No::of)
}

/// Whether the check says yes to a plan.
pub fn is_accepted(plan: &[u8]) -> bool {
    read(plan).is_ok()
}

// Whether the check finds a fault in the tables of a plan that is whole.
fn is_fault(w: ReadWhy) -> bool {
    matches!(w, ReadWhy::Checked(Objection::Bad(_)))
}

/// Whether a plan is whole, though the check may find a fault in its tables.
pub fn is_whole(plan: &[u8]) -> bool {
    match read(plan) {
        Ok(_) => true,
        Err(w) => is_fault(w),
    }
}

fn put_no(page: Page, plan: Plan, w: ReadWhy) -> Page {
    words::tell(page, plan.list(), plan.names, No::of(w))
}

/// The fault of a plan, or why it is none; nothing where it is accepted.
pub fn put_fault(page: Page, plan: Plan) -> Page {
    match read(plan.bytes) {
        Ok(_) => page,
        Err(w) => put_no(page, plan, w),
    }
}

/// The counts of a plan, after a yes.
pub fn put_yes(page: Page, path: &[u8], plan: &[u8]) -> Page {
    let named = page.put(b"yes: ").put(path).put(b", ");
    let counted = named.count(plan.len(), b"byte").put(b": ");
    put_counts(counted, list_of(plan)).end()
}

// Where to see the fault happen.
fn put_why(page: Page, path: &[u8]) -> Page {
    words::label(page, b"why").put(b"desk why ").put(path)
}

fn put_night(page: Page) -> Page {
    page.line(b" shows a night on which it happens")
}

/// Yes, or the fault.
pub fn put_check(page: Page, path: &[u8], plan: Plan) -> Page {
    match read(plan.bytes) {
        Ok(_) => put_yes(page, path, plan.bytes),
        Err(w) if is_fault(w) => put_night(put_why(put_no(page, plan, w), path)),
        Err(w) => put_no(page, plan, w),
    }
}

/// Yes: the plan has no night on which it goes wrong.
pub fn put_good(page: Page, path: &[u8]) -> Page {
    let to = page.put(b"yes: ").put(path);
    to.line(b": every night is good, so there is none to show")
}

/// Yes, or the fault, of two tables that were drawn by hand and are no plan yet.
pub fn put_drawn(page: Page, jobs: &[u8], path: &[u8], plan: Plan) -> Page {
    match read(plan.bytes) {
        Ok(_) => {
            let named = page.put(b"yes: ").put(path).put(b": ");
            put_counts(named, plan.list()).end()
        }
        Err(w) => {
            let to = put_why(put_no(page, plan, w), jobs);
            put_night(to.put(b" ").put(path))
        }
    }
}

/// Both tables, with the fault where there is one.
pub fn put_show(page: Page, plan: Plan) -> Page {
    let in_colour = page.is_terminal();
    put_fault(drawing::put_tables(page, plan, in_colour), plan)
}
