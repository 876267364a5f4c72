//! The check of a list and its two tables.
#![tactic(auto)]

ghost use Rattle.std.specs.Prelude.{◌≡◌, Ok, not, ◌||◌, eqb, ltb};
ghost use Rattle.basics.specs.Marks.{idle};
ghost use Rattle.basics.specs.Limits.{first_edition};
ghost use Rattle.joblist.specs.Answer.{list_answer};
ghost use Rattle.verdict.specs.Answer.{odd_entry, tables_answer, check_of};
ghost use Rattle.verdict.specs.Inner.{first_of};
ghost use Rattle.verdict.specs.Numbers.{fault_number, number_of, place_of};
ghost use Rattle.verdict.specs.declared.Spot.TheVariants.{InList, AtFault};
ghost use Rattle.joblist.specs.declared.Place.TheVariants.{Nowhere};

use joblist::{MOST_JOBS, Place, Table, Why};
use refusal::Refusal;

pub mod count;
mod faults;
mod jobs;
mod slot;

/// The idle mark, as wide as an entry is read.
pub(crate) const IDLE: usize = Table::IDLE as usize;

/// The pairs of jobs.
pub(crate) const PAIRS: usize = MOST_JOBS * MOST_JOBS;

/// A fault: slot, job, the predecessor where it is one, and the switch slot.
#[derive(Clone, Copy, Debug, PartialEq, Eq)]
pub enum Fault {
    Late(usize, usize, usize),
    Early(usize, usize, usize),
    Before(usize, usize, usize, usize),
}

impl Fault {
    /// The switch slot of a fault before which no switch was made: an associated constant, a form that the document names, and
    /// `chain_of` reads it.
    pub const NO_SWITCH: usize = 65535;
}

/// Why the check says no: the list is refused, a table is not of L bytes, an entry names no job, or an execution goes wrong.
#[derive(Clone, Copy, Debug, PartialEq, Eq)]
pub enum Objection {
    OfList(Why),
    Size,
    Entry(usize),
    Bad(Fault),
}

/// The check's answer: yes, or what it objects to.
pub type Verdict = Result<(), Objection>;

impl From<Why> for Objection {
    ghost use Rattle.verdict.specs.declared.Objection.TheVariants.{OfList};

    ghost from_gives = { λ w o. o ≡ OfList w };

    fn from(w: Why) -> Objection {
        Objection::OfList(w)
    }
}

/// Where the check says no.
#[derive(Clone, Copy, Debug, PartialEq, Eq)]
pub enum Spot {
    InList(Place),
    AtSlot(usize),
    AtFault(Fault),
}

impl Refusal for Fault {
    type Place = Spot;

    ghost number = { fault_number };

    ghost place = { AtFault };

    ghost nowhere = { InList Nowhere };

    fn number(self) -> usize {
        match self {
            Fault::Late(_, _, _) => 10,
            Fault::Early(_, _, _) => 11,
            Fault::Before(_, _, _, _) => 12,
        }
    }

    fn place(self) -> Spot {
        Spot::AtFault(self)
    }

    fn nowhere() -> Spot {
        Spot::InList(Place::Nowhere)
    }
}

impl Refusal for Objection {
    type Place = Spot;

    ghost number = { number_of };

    ghost place = { place_of };

    ghost nowhere = { InList Nowhere };

    fn number(self) -> usize {
        match self {
            Objection::OfList(w) => w.number(),
            Objection::Size => 43,
            Objection::Entry(_) => 45,
            Objection::Bad(f) => f.number(),
        }
    }

    fn place(self) -> Spot {
        match self {
            Objection::OfList(w) => Spot::InList(w.place()),
            Objection::Size => Spot::InList(Place::Nowhere),
            Objection::Entry(t) => Spot::AtSlot(t),
            Objection::Bad(f) => f.place(),
        }
    }

    fn nowhere() -> Spot {
        Spot::InList(Place::Nowhere)
    }
}

// Whether an entry is neither idle nor one of n jobs.
fn is_odd(j: usize, n: usize) -> bool
    ensures { result ≡ not (ltb j n || eqb j idle) }
{
    n <= j && j != IDLE
}

/// The first entry of a table that is neither idle nor a job.
fn first_odd(table: &[u8], n: usize) -> Option<usize>
    ensures { result ≡ first_of (odd_entry table.now n) }
{
    table
        .iter()
        .position(|&entry| is_odd(usize::from(entry), n))
}

/// The two tables of a good list.
fn check_tables(list: &[u8], lo: &[u8], hi: &[u8]) -> Verdict
    requires { list_answer first_edition list.now ≡ Ok tt }
    ensures { result ≡ tables_answer list.now lo.now hi.now }
{
    let n = joblist::jobs_of(list);
    let m = joblist::edges_of(list);
    let l = joblist::slots_of(list);
    if lo.len() != l {
        return Err(Objection::Size);
    }
    if hi.len() != l {
        return Err(Objection::Size);
    }
    if let Some(t) = first_odd(lo, n) {
        return Err(Objection::Entry(t));
    }
    if let Some(t) = first_odd(hi, n) {
        return Err(Objection::Entry(t));
    }
    faults::search_tables(list, lo, hi, n, m, l).map_err(Objection::Bad)
}

/// The check of a list and two tables.
#[tactic(auto, unfolding(crate::specs::Answer::check_of))]
pub fn check(list: &[u8], lo: &[u8], hi: &[u8]) -> Verdict
    ensures { result ≡ check_of first_edition list.now lo.now hi.now }
{
    joblist::check_list(list)?;
    check_tables(list, lo, hi)
}
