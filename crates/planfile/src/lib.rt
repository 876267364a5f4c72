//! A plan in bytes: written from a list and two tables, read again, and taken apart.
#![tactic(auto)]

ghost use Rattle.std.specs.Prelude.{◌≡◌, ℕ, ◌+◌, ◌<◌, ◌≤◌, length, take, drop, ◌↔◌, IsSome, IfSome};
ghost use Rattle.basics.specs.Bytes.{u32_at};
ghost use Rattle.basics.specs.Limits.{first_edition};
ghost use Rattle.basics.specs.Put.{put};
ghost use Rattle.joblist.specs.Fields.{jobs, edges, slots};
ghost use Rattle.planfile.specs.Plan.{trailer_bytes, trailer, plan_of, plan_bytes, least_bytes, low_at, list_of, low_of, high_of};
ghost use Rattle.planfile.specs.Answer.{shape_of, parts_answer, read_of, write_of, out_after};
ghost use Rattle.planfile.specs.Numbers.{read_why_number, read_why_place, write_why_number, write_why_place};
ghost use Rattle.verdict.specs.declared.Spot.TheVariants.{InList};
ghost use Rattle.joblist.specs.declared.Place.TheVariants.{Nowhere};

use joblist::{EDGE_BYTES, HEAD_BYTES, JOB_BYTES, Place, Why, edges_of, jobs_of, slots_of};
use refusal::Refusal;
use verdict::{Objection, Spot};

/// The mark that ends a plan of the first edition, 54 54 50 31, as the 32 bits that it is read as.
pub const MARK: usize = 0x31505454;

/// The bytes of the trailer: the distance and the mark, 32 bits each.
pub const TRAILER_BYTES: usize = 8;

/// No plan is shorter.
pub const LEAST_BYTES: usize = HEAD_BYTES + TRAILER_BYTES;

/// Why bytes are no plan.
#[derive(Clone, Copy, Debug, PartialEq, Eq)]
pub enum ReadWhy {
    Short,
    Mark,
    Distance,
    Checked(Objection),
}

/// The counts n and m, and the frame length L.
#[derive(Clone, Copy, Debug, PartialEq, Eq)]
pub struct Shape {
    pub jobs: usize,
    pub edges: usize,
    pub slots: usize,
}

/// Why nothing was written.
#[derive(Clone, Copy, Debug, PartialEq, Eq)]
pub enum WriteWhy {
    Checked(Objection),
    Room,
}

impl From<Objection> for ReadWhy {
    ghost use Rattle.planfile.specs.declared.ReadWhy.TheVariants.{Checked};

    ghost from_gives = { λ objection why. why ≡ Checked objection };

    fn from(objection: Objection) -> ReadWhy {
        ReadWhy::Checked(objection)
    }
}

impl From<Why> for ReadWhy {
    ghost use Rattle.verdict.specs.declared.Objection.TheVariants.{OfList};
    ghost use Rattle.planfile.specs.declared.ReadWhy.TheVariants.{Checked};

    ghost from_gives = { λ list why. why ≡ Checked (OfList list) };

    fn from(list: Why) -> ReadWhy {
        ReadWhy::Checked(Objection::OfList(list))
    }
}

impl From<Objection> for WriteWhy {
    ghost use Rattle.planfile.specs.declared.WriteWhy.TheVariants.{Checked};

    ghost from_gives = { λ objection why. why ≡ Checked objection };

    fn from(objection: Objection) -> WriteWhy {
        WriteWhy::Checked(objection)
    }
}

impl Refusal for ReadWhy {
    type Place = Spot;

    ghost number = { read_why_number };

    ghost place = { read_why_place };

    ghost nowhere = { InList Nowhere };

    fn number(self) -> usize {
        match self {
            ReadWhy::Short => 40,
            ReadWhy::Mark => 41,
            ReadWhy::Distance => 42,
            ReadWhy::Checked(o) => o.number(),
        }
    }

    fn place(self) -> Spot {
        match self {
            ReadWhy::Short | ReadWhy::Mark | ReadWhy::Distance => Self::nowhere(),
            ReadWhy::Checked(o) => o.place(),
        }
    }

    fn nowhere() -> Spot {
        Spot::InList(Place::Nowhere)
    }
}

impl Refusal for WriteWhy {
    type Place = Spot;

    ghost number = { write_why_number };

    ghost place = { write_why_place };

    ghost nowhere = { InList Nowhere };

    fn number(self) -> usize {
        match self {
            WriteWhy::Checked(o) => o.number(),
            WriteWhy::Room => 46,
        }
    }

    fn place(self) -> Spot {
        match self {
            WriteWhy::Checked(o) => o.place(),
            WriteWhy::Room => Self::nowhere(),
        }
    }

    fn nowhere() -> Spot {
        ReadWhy::nowhere()
    }
}

// Puts the bytes of s into out from `at` on. By place: `copy_from_slice` asks `memmove` of firmware, and include/hut.h promises
// that `memcpy` and `memset` are enough.
#[tactic(auto, using(basics::proofs::Put::put_none))]
fn copy_at(out: &mut [u8], at: usize, s: &[u8])
    requires { at + length s.now ≤ length out.old }
    ensures { out.new ≡ put out.old at s.now }
{
    for i in 0..s.len() {
        out[at + i] = s[i];
    }
}

// The trailer: the distance back, and the mark.
fn trailer_of(back: usize) -> [u8; TRAILER_BYTES]
    ensures { result ≡ trailer back }
{
    let [a, b, c, d, ..] = back.to_le_bytes();
    let [e, f, g, h, ..] = MARK.to_le_bytes();
    [a, b, c, d, e, f, g, h]
}

/// Inner: the plan of a list and two tables that were checked, at the front of a buffer that has room; its length. Who builds a pair writes it so too.
#[tactic(auto, using(crate::proofs::Written::plan_length, crate::proofs::Written::four))]
pub fn put_plan(list: &[u8], lo: &[u8], hi: &[u8], out: &mut [u8]) -> usize
    requires { length list.now + length lo.now + length hi.now + trailer_bytes ≤ length out.old }
    ensures { (result ≡ length (plan_of list.now lo.now hi.now))
        × (out.new ≡ put out.old 0 (plan_of list.now lo.now hi.now)) }
{
    let low = list.len();
    let high = low + lo.len();
    let back = high + hi.len();
    let t = trailer_of(back);
    copy_at(out, 0, list);
    copy_at(out, low, lo);
    copy_at(out, high, hi);
    copy_at(out, back, &t);
    back + TRAILER_BYTES
}

/// Writes the plan at the front of `out`, where the check says yes and there is room; no byte changes otherwise.
/// The list and its tables stand side by side, as in the check's call and in C's.
#[tactic(auto, using(crate::proofs::Accepted::pair_fits, crate::proofs::Written::plan_length), unfolding(crate::specs::Answer::write_of, crate::specs::Answer::out_after))]
pub fn write(list: &[u8], lo: &[u8], hi: &[u8], out: &mut [u8]) -> Result<usize, WriteWhy>
    ensures { (result ≡ write_of first_edition list.now lo.now hi.now (length out.old))
        × (out.new ≡ out_after first_edition list.now lo.now hi.now out.old) }
{
    verdict::check(list, lo, hi)?;
    if out.len() < list.len() + lo.len() + hi.len() + TRAILER_BYTES {
        return Err(WriteWhy::Room);
    }
    Ok(put_plan(list, lo, hi, out))
}

/// Inner: the 32 bits at i. The log reads a trailer so too.
#[tactic(auto, unfolding(basics::specs::Bytes::u32_at))]
pub fn u32_at(s: &[u8], i: usize) -> usize
    requires { i + 3 < length s.now }
    ensures { result ≡ u32_at s.now i }
{
    u32::from_le_bytes([s[i], s[i + 1], s[i + 2], s[i + 3]]) as usize
}

// k bytes from `at` on, as many of them as are there.
#[tactic(auto, using(crate::proofs::Parts::part_rest))]
fn part(s: &[u8], at: usize, k: usize) -> &[u8]
    ensures { result.now ≡ take k (drop at s.now) }
{
    let rest = &s[at.min(s.len())..];
    &rest[..k.min(rest.len())]
}

/// Bytes as many as the shortest plan has, so that they have counts.
#[derive(Clone, Copy)]
pub struct Counted<'a> {
    pub bytes: &'a [u8],
    ghost long: { least_bytes ≤ length bytes.now },
}

impl<'a> Counted<'a> {
    /// None of fewer bytes.
    pub fn of(bytes: &'a [u8]) -> Option<Self>
        ensures long { IsSome result ↔ (least_bytes ≤ length bytes.now) }
        ensures same { IfSome result (λ plan. plan.bytes.now ≡ bytes.now) }
    {
        if bytes.len() < LEAST_BYTES {
            return None;
        }
        Some(Counted { bytes })
    }

    // The counts.
    fn shape(self) -> Shape
        ensures { result ≡ shape_of self.entry.bytes.now }
    {
        Shape {
            jobs: jobs_of(self.bytes),
            edges: edges_of(self.bytes),
            slots: slots_of(self.bytes),
        }
    }

    // Where table LO begins: after the list.
    fn low_at(self) -> usize
        ensures { (result ≡ low_at self.entry.bytes.now) × (result < 1000000) }
    {
        HEAD_BYTES + JOB_BYTES * jobs_of(self.bytes) + EDGE_BYTES * edges_of(self.bytes)
    }

    /// Inner: the length that the counts give a plan. The log finds a plan's end so too.
    pub fn size(self) -> usize
        ensures { (result ≡ plan_bytes (jobs self.entry.bytes.now) (edges self.entry.bytes.now) (slots self.entry.bytes.now)) × (result < 2000000) }
    {
        self.low_at() + 2 * slots_of(self.bytes) + TRAILER_BYTES
    }

    // The list's rows, with the plan's own length, and then the check of the parts.
    #[tactic(auto, unfolding(crate::specs::Answer::parts_answer))]
    fn read(self) -> Result<Shape, ReadWhy>
        ensures { result ≡ parts_answer first_edition self.entry.bytes.now }
    {
        let plan = self.bytes;
        joblist::check_front(plan, self.size())?;
        verdict::check(list_of(plan), low_of(plan), high_of(plan))?;
        Ok(self.shape())
    }
}

/// The list of a plan, as much of it as lies in the bytes; nothing of fewer than 16 bytes. The three parts are calls of their own
/// names, each with a definition of its own.
#[tactic(auto, using(crate::proofs::Parts::part_none, crate::proofs::Parts::part_some))]
pub fn list_of(plan: &[u8]) -> &[u8]
    ensures { result.now ≡ list_of plan.now }
{
    match Counted::of(plan) {
        Some(counted) => part(plan, 0, counted.low_at()),
        None => &[],
    }
}

/// Its table LO, in the same way.
#[tactic(auto, using(crate::proofs::Parts::part_none, crate::proofs::Parts::part_some))]
pub fn low_of(plan: &[u8]) -> &[u8]
    ensures { result.now ≡ low_of plan.now }
{
    match Counted::of(plan) {
        Some(counted) => part(plan, counted.low_at(), slots_of(plan)),
        None => &[],
    }
}

/// Its table HI, in the same way.
#[tactic(auto, using(crate::proofs::Parts::part_none, crate::proofs::Parts::part_some))]
pub fn high_of(plan: &[u8]) -> &[u8]
    ensures { result.now ≡ high_of plan.now }
{
    match Counted::of(plan) {
        Some(counted) => part(plan, counted.low_at() + slots_of(plan), slots_of(plan)),
        None => &[],
    }
}

/// What the bytes of a slice are: a plan, with its counts, or why not.
#[tactic(auto, unfolding(crate::specs::Answer::read_of, basics::specs::Bytes::u32_at))]
pub fn read(plan: &[u8]) -> Result<Shape, ReadWhy>
    ensures { result ≡ read_of first_edition plan.now }
{
    let counted = Counted::of(plan).ok_or(ReadWhy::Short)?;
    let back = plan.len() - TRAILER_BYTES;
    if u32_at(plan, back + 4) != MARK {
        return Err(ReadWhy::Mark);
    }
    if u32_at(plan, back) != back {
        return Err(ReadWhy::Distance);
    }
    counted.read()
}
