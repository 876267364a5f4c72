//! The plans of a store, back to back: the walk from the front, the newest, and the one before.
#![tactic(auto)]

ghost use Rattle.std.specs.Prelude.{◌≡◌, ◌≤◌, length, IfSome};
ghost use Rattle.basics.specs.Limits.{first_edition};
ghost use Rattle.logwalk.specs.Walk.{whole_at, last_plan, walk, end_of};
ghost use Rattle.logwalk.specs.Answer.{newest_of, plan_before, previous_of};
ghost use Rattle.logwalk.specs.Numbers.{find_why_number, find_why_place};
ghost use Rattle.verdict.specs.declared.Spot.TheVariants.{InList};
ghost use Rattle.joblist.specs.declared.Place.TheVariants.{Nowhere};

use joblist::Place;
use planfile::{Counted, TRAILER_BYTES};
use refusal::Refusal;
use verdict::Spot;

/// No store is larger: 64 KiB.
pub const STORE_MOST: usize = 65536;

/// A plan in a store: where it begins, and how many bytes it has.
#[derive(Clone, Copy, Debug, PartialEq, Eq)]
pub struct Span {
    pub start: usize,
    pub size: usize,
}

/// Why no plan was found.
#[derive(Clone, Copy, Debug, PartialEq, Eq)]
pub enum FindWhy {
    Large,
    Empty,
}

impl Refusal for FindWhy {
    type Place = Spot;

    ghost number = { find_why_number };

    ghost place = { find_why_place };

    ghost nowhere = { InList Nowhere };

    fn number(self) -> usize {
        match self {
            FindWhy::Large => 52,
            FindWhy::Empty => 51,
        }
    }

    fn place(self) -> Spot {
        Self::nowhere()
    }

    fn nowhere() -> Spot {
        Spot::InList(Place::Nowhere)
    }
}

// The size of the accepted plan that begins at `at`, if one does.
#[tactic(auto, using(crate::proofs::Steps::whole_past, crate::proofs::Steps::whole_short, crate::proofs::Steps::whole_beyond, crate::proofs::Steps::whole_read))]
fn size_at(store: &[u8], at: usize) -> Option<usize>
    ensures { result ≡ whole_at first_edition store.now at }
{
    let rest = store.get(at..)?;
    let size = Counted::of(rest)?.size();
    planfile::read(rest.get(..size)?).is_ok().then_some(size)
}

/// Inner: the last whole plan, by the walk from the front. The place moves by each plan's size, so no index is counted.
#[tactic(auto, using(crate::proofs::Steps::step_fits, crate::proofs::Steps::step_least, crate::proofs::Steps::step_first))]
pub fn last_of(store: &[u8]) -> Option<Span>
    ensures last { result ≡ last_plan (walk first_edition store.now) }
    ensures within { IfSome result (λ last. end_of last ≤ length store.now) }
{
    let mut last = None;
    let mut end = 0;
    while let Some(size) = size_at(store, end) {
        last = Some(Span { start: end, size });
        end += size;
    }
    last
}

/// The newest whole plan of a store: its place and size.
#[tactic(auto, using(crate::proofs::Rows::newest_large, crate::proofs::Rows::newest_walk))]
pub fn newest(store: &[u8]) -> Result<Span, FindWhy>
    ensures { result ≡ newest_of first_edition store.now }
{
    if STORE_MOST < store.len() {
        return Err(FindWhy::Large);
    }
    last_of(store).ok_or(FindWhy::Empty)
}

// The accepted plan that ends at `end`, if one does: its trailer's distance leads back to its start.
#[tactic(auto, using(crate::proofs::Back::before_past, crate::proofs::Back::before_short, crate::proofs::Back::before_far, crate::proofs::Back::before_read))]
fn plan_before(store: &[u8], end: usize) -> Option<Span>
    ensures { result ≡ plan_before first_edition store.now end }
{
    let before = store.get(..end)?;
    let trailer = end.checked_sub(TRAILER_BYTES)?;
    let start = trailer.checked_sub(planfile::u32_at(before, trailer))?;
    let plan = Span {
        start,
        size: end - start,
    };
    planfile::read(&before[start..]).is_ok().then_some(plan)
}

/// The accepted plan that ends at `end`. From the newest plan's end, and then from each start, this lists the plans newest first.
#[tactic(auto, unfolding(crate::specs::Answer::previous_of))]
pub fn previous(store: &[u8], end: usize) -> Result<Span, FindWhy>
    ensures { result ≡ previous_of first_edition store.now end }
{
    if STORE_MOST < store.len() {
        return Err(FindWhy::Large);
    }
    plan_before(store, end).ok_or(FindWhy::Empty)
}
