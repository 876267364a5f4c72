//! The builder: the merge method, slot for slot, and the plan of the pair that it makes.
#![tactic(auto)]

ghost use Rattle.std.specs.Prelude.{◌≡◌, ℕ, ◌+◌, ◌≤◌, length, Ok};
ghost use Rattle.basics.specs.Limits.{first_edition};
ghost use Rattle.joblist.specs.Fields.{jobs, edges, slots};
ghost use Rattle.joblist.specs.Answer.{list_answer};
ghost use Rattle.joblist.specs.declared.Place.TheVariants.{Nowhere};
ghost use Rattle.planfile.specs.Plan.{plan_bytes};
ghost use Rattle.late.specs.Table.{all_idle};
ghost use Rattle.merge.specs.Build.{pair_of, built_lo, built_hi, build_of, out_after};
ghost use Rattle.merge.specs.Numbers.{why_number, why_place};
ghost use Rattle.merge.specs.declared.BuildPlace.TheVariants.{InList};

use hitable::table_hi;
use joblist::{MOST_SLOTS, Place, Table, Why};
use late::{List, keep_first, late_table};
use lotable::{Clash, table_lo};
use planfile::TRAILER_BYTES;
use refusal::Refusal;
use verdict::Verdict;

/// Why no plan is built, with the place; where the check says no to the pair, its whole answer.
#[derive(Clone, Copy, Debug, PartialEq, Eq)]
pub enum BuildWhy {
    OfList(Why),
    Room,
    LowLate(usize, usize),
    HighLate(usize, usize),
    Both(usize),
    Early(usize),
    Rejected(Verdict),
}

impl From<Why> for BuildWhy {
    ghost use Rattle.merge.specs.declared.BuildWhy.TheVariants.{OfList};

    ghost from_gives = { λ list why. why ≡ OfList list };

    fn from(list: Why) -> BuildWhy {
        BuildWhy::OfList(list)
    }
}

impl From<Clash> for BuildWhy {
    ghost use Rattle.merge.specs.Build.{clash_why};

    ghost from_gives = { λ clash why. why ≡ clash_why clash };

    fn from(clash: Clash) -> BuildWhy {
        match clash {
            Clash::BothAt(t) => BuildWhy::Both(t),
            Clash::EarlyAt(t) => BuildWhy::Early(t),
        }
    }
}

/// Where a build is refused.
#[derive(Clone, Copy, Debug, PartialEq, Eq)]
pub enum BuildPlace {
    InList(Place),
    AtJob(usize, usize),
    AtSlot(usize),
    Answer(Verdict),
}

impl Refusal for BuildWhy {
    type Place = BuildPlace;

    ghost number = { why_number };

    ghost place = { why_place };

    ghost nowhere = { InList Nowhere };

    fn number(self) -> usize {
        match self {
            BuildWhy::OfList(list) => list.number(),
            BuildWhy::Room => 46,
            BuildWhy::LowLate(_, _) => 20,
            BuildWhy::HighLate(_, _) => 21,
            BuildWhy::Both(_) => 22,
            BuildWhy::Early(_) => 23,
            BuildWhy::Rejected(_) => 24,
        }
    }

    fn place(self) -> BuildPlace {
        match self {
            BuildWhy::OfList(list) => BuildPlace::InList(list.place()),
            BuildWhy::Room => BuildWhy::nowhere(),
            BuildWhy::LowLate(t, j) => BuildPlace::AtJob(t, j),
            BuildWhy::HighLate(t, j) => BuildPlace::AtJob(t, j),
            BuildWhy::Both(t) | BuildWhy::Early(t) => BuildPlace::AtSlot(t),
            BuildWhy::Rejected(v) => BuildPlace::Answer(v),
        }
    }

    fn nowhere() -> BuildPlace {
        BuildPlace::InList(Place::Nowhere)
    }
}

// A table copied into another of the same length. By slot: `copy_from_slice` asks `memmove` of firmware, and include/hut.h promises
// that `memcpy` and `memset` are enough.
fn copy_table(from: &[u8], to: &mut [u8])
    requires { length from.now ≡ length to.old }
    ensures { to.new ≡ from.now }
{
    for t in 0..from.len() {
        to[t] = from[t];
    }
}

// The tables that a build is lent, each of L bytes: TLO and what is left of it, THI as first made, what is left of THI, and the pair.
#[derive(Drop)]
struct Tables<'a> {
    low: &'a mut [u8],
    high: &'a mut [u8],
    left: &'a mut [u8],
    lo: &'a mut [u8],
    hi: &'a mut [u8],
}

impl Tables<'_> {
    ghost use Rattle.merge.specs.Lent.{AreIdle};

    // The plan of the list into out, which has room for it.
    fn build(self, list: List<'_>, out: &mut [u8]) -> Result<usize, BuildWhy>
        requires accepted { list_answer first_edition list.bytes.now ≡ Ok tt }
        requires idle { AreIdle list.bytes.now self }
        requires room { plan_bytes (jobs list.bytes.now) (edges list.bytes.now) (slots list.bytes.now) ≤ length out.old }
        ensures { (result ≡ build_of first_edition list.entry.bytes.now (length out.old))
            × (out.new ≡ out_after first_edition list.entry.bytes.now out.old) }
    {
        let Tables {
            low,
            high,
            left,
            lo,
            hi,
        } = self;
        let low_late = late_table(list, 0, low).map_err(|l| BuildWhy::LowLate(l.slot, l.job));
        let high_late = late_table(list, 1, high).map_err(|l| BuildWhy::HighLate(l.slot, l.job));
        low_late.and(high_late)?;
        keep_first(list, high);
        copy_table(high, left);
        table_lo(list, low, left, lo)?;
        table_hi(list, lo, high, hi);
        let v = verdict::check(list.bytes, lo, hi);
        let Ok(()) = v else {
            return Err(BuildWhy::Rejected(v));
        };
        Ok(planfile::put_plan(list.bytes, lo, hi, out))
    }
}

/// Builds the plan of a list at the front of `out`; a refusal changes no byte of it.
pub fn build(list: &[u8], out: &mut [u8]) -> Result<usize, BuildWhy>
    ensures { (result ≡ build_of first_edition list.now (length out.old))
        × (out.new ≡ out_after first_edition list.now out.old) }
{
    joblist::check_list(list)?;
    let l = joblist::slots_of(list);
    if out.len() < list.len() + 2 * l + TRAILER_BYTES {
        return Err(BuildWhy::Room);
    }
    // there is no heap here: five arrays, of which the first L bytes are lent
    let mut low = [Table::IDLE; MOST_SLOTS];
    let mut high = [Table::IDLE; MOST_SLOTS];
    let mut left = [Table::IDLE; MOST_SLOTS];
    let mut lo = [Table::IDLE; MOST_SLOTS];
    let mut hi = [Table::IDLE; MOST_SLOTS];
    let tables = Tables {
        low: &mut low[..l],
        high: &mut high[..l],
        left: &mut left[..l],
        lo: &mut lo[..l],
        hi: &mut hi[..l],
    };
    tables.build(List { bytes: list }, out)
}
