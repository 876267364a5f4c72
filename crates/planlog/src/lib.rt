//! A log of plans in one store: appended so that a cut of power loses none.
#![tactic(auto)]

ghost use Rattle.std.specs.Prelude.{◌≡◌, ◌+◌, ◌-◌, ◌≤◌, length, take};
ghost use Rattle.basics.specs.Limits.{first_edition};
ghost use Rattle.logwalk.specs.Walk.{last_end};
ghost use Rattle.planlog.specs.Writes.{zeros, copies, writes_at, after, nth_write};
ghost use Rattle.planlog.specs.Answer.{append_of, cut_store, appended_store};
ghost use Rattle.planlog.specs.declared.AppendWhy.TheVariants.{Refused};
ghost use Rattle.planlog.specs.Numbers.{append_why_number, append_why_place};
ghost use Rattle.verdict.specs.declared.Spot.TheVariants.{InList};
ghost use Rattle.joblist.specs.declared.Place.TheVariants.{Nowhere};

use logwalk::STORE_MOST;
use planfile::ReadWhy;
use refusal::Refusal;
use verdict::Spot;

// No append writes more bytes: each byte of the store at most twice.
const WRITES_MOST: usize = 2 * STORE_MOST;

/// One byte written into a store.
#[derive(Clone, Copy, Debug, PartialEq, Eq)]
pub struct Write {
    pub place: usize,
    pub byte: u8,
}

/// Why a plan was not appended.
#[derive(Clone, Copy, Debug, PartialEq, Eq)]
pub enum AppendWhy {
    Large,
    Refused(ReadWhy),
    Full,
}

impl From<ReadWhy> for AppendWhy {
    ghost from_gives = { λ why append. append ≡ Refused why };

    fn from(why: ReadWhy) -> AppendWhy {
        AppendWhy::Refused(why)
    }
}

impl Refusal for AppendWhy {
    type Place = Spot;

    ghost number = { append_why_number };

    ghost place = { append_why_place };

    ghost nowhere = { InList Nowhere };

    fn number(self) -> usize {
        match self {
            AppendWhy::Large => 52,
            AppendWhy::Refused(w) => w.number(),
            AppendWhy::Full => 50,
        }
    }

    fn place(self) -> Spot {
        match self {
            AppendWhy::Large | AppendWhy::Full => Self::nowhere(),
            AppendWhy::Refused(w) => w.place(),
        }
    }

    fn nowhere() -> Spot {
        ReadWhy::nowhere()
    }
}

// Where the last whole plan of a store ends; 0 where there is none.
#[tactic(auto, using(logwalk::proofs::Rows::end_some, logwalk::proofs::Rows::end_none))]
fn last_end(store: &[u8]) -> usize
    ensures at { result ≡ last_end first_edition store.now }
    ensures within { result ≤ length store.now }
{
    match logwalk::last_of(store) {
        Some(last) => last.start + last.size,
        None => 0,
    }
}

/// Where an append puts the plan, or why it does not. It only reads.
#[tactic(auto, unfolding(crate::specs::Answer::append_of))]
pub fn room_for(store: &[u8], plan: &[u8]) -> Result<usize, AppendWhy>
    ensures { result ≡ append_of first_edition store.now plan.now }
{
    if STORE_MOST < store.len() {
        return Err(AppendWhy::Large);
    }
    planfile::read(plan)?;
    let end = last_end(store);
    if store.len() - end < plan.len() {
        return Err(AppendWhy::Full);
    }
    Ok(end)
}

// Zeroes k bytes of the store, from its last byte back; byte by byte, since the log's order of writes stands here, and `fill` has none.
#[tactic(auto, using(crate::proofs::Writes::after_none))]
fn zero_back(store: &mut [u8], end: usize, k: usize)
    requires { (end ≤ length store.old) × (k ≤ length store.old - end) }
    ensures { store.new ≡ after store.old (take k (zeros end (length store.old - end))) }
{
    let n = store.len();
    for place in (n - k..n).rev() {
        store[place] = 0;
    }
}

// Writes bytes from `at` on, forwards; byte by byte, for the same reason.
#[tactic(auto, using(crate::proofs::Writes::after_none))]
fn copy_on(store: &mut [u8], at: usize, bytes: &[u8])
    requires { at + length bytes.now ≤ length store.old }
    ensures { store.new ≡ after store.old (copies at bytes.now) }
{
    for (i, byte) in bytes.iter().enumerate() {
        store[at + i] = *byte;
    }
}

// The writes of an append at `end`: zeros back from the store's last byte, then the plan forwards; `most` bytes at most.
#[tactic(auto, using(crate::proofs::Writes::writes_two))]
fn write_at(store: &mut [u8], plan: &[u8], end: usize, most: usize)
    requires { end + length plan.now ≤ length store.old }
    ensures { store.new ≡ after store.old (take most (writes_at (length store.old) end plan.now)) }
{
    let zeros = most.min(store.len() - end);
    zero_back(store, end, zeros);
    copy_on(store, end, &plan[..plan.len().min(most - zeros)]);
}

/// Appends the plan, where power fails after `most` bytes were written. No byte changes where the append is refused.
#[tactic(auto, using(crate::proofs::Rows::append_yes, crate::proofs::Rows::cut_leaves, crate::proofs::Rows::cut_writes))]
pub fn append_cut(store: &mut [u8], plan: &[u8], most: usize) -> Result<usize, AppendWhy>
    ensures { (result ≡ append_of first_edition store.old plan.now)
        × (store.new ≡ cut_store first_edition store.old plan.now most) }
{
    let end = room_for(store, plan)?;
    write_at(store, plan, end, most);
    Ok(end)
}

/// Appends the plan: the same, and power lasts for every byte that an append can write.
#[tactic(auto, using(crate::proofs::Rows::cut_never))]
pub fn append(store: &mut [u8], plan: &[u8]) -> Result<usize, AppendWhy>
    ensures { (result ≡ append_of first_edition store.old plan.now)
        × (store.new ≡ appended_store first_edition store.old plan.now) }
{
    append_cut(store, plan, WRITES_MOST)
}

/// Write k of an append that puts the plan at `end` in a store of `size` bytes: for a store that is written byte by byte, behind a device or in a file. None past the last, or where the plan does not fit.
#[tactic(auto, using(crate::proofs::Writes::nth_beyond, crate::proofs::Writes::nth_zero, crate::proofs::Writes::nth_byte, crate::proofs::Writes::nth_past))]
pub fn nth_write(size: usize, end: usize, plan: &[u8], k: usize) -> Option<Write>
    ensures { result ≡ nth_write size end plan.now k }
{
    // a test, and not `checked_sub` with `?`: that takes one and a half times as long
    if size < end {
        return None;
    }
    let zeros = size - end;
    if zeros < plan.len() {
        return None;
    }
    if k < zeros {
        return Some(Write {
            place: size - (k + 1),
            byte: 0,
        });
    }
    let i = k - zeros;
    let byte = *plan.get(i)?;
    Some(Write {
        place: end + i,
        byte,
    })
}
