//! A plan as a state holds it: document 01's counts, jobs, edges and tables.
ghost use Rattle.std.specs.Prelude.{◌≡◌, ◌<◌};
ghost use Rattle.basics.specs.Limits.{first_edition};
ghost use Rattle.parts.specs.Plan.{number_in, plan_of, no_plan};

use crate::lent::PlanParts;
use joblist::{MOST_EDGES, MOST_JOBS, MOST_SLOTS};

/// A job's numbers are a, d, CLO, CHI and the level, in the order of its bytes.
pub const NUMBERS: usize = 5;

pub const ARRIVAL: usize = 0;

pub const DEADLINE: usize = 1;

pub const CLO: usize = 2;

pub const CHI: usize = 3;

pub const LEVEL: usize = 4;

/// Room for the most jobs' numbers; for the most edges' ends and for both tables below.
pub const JOBS: usize = NUMBERS * MOST_JOBS;

pub const ENDS: usize = 2 * MOST_EDGES;

pub const ENTRIES: usize = 2 * MOST_SLOTS;

/// The frame length L, the job count n and the edge count m.
#[repr(C)]
#[derive(Clone, Copy)]
pub struct Counts {
    pub len: u16,
    pub n: u16,
    pub m: u16,
}

/// The numbers job by job; the edges as pairs, p and s; table LO, and table HI from MOST_SLOTS on. Each is one flat array:
/// `number_in`, `edges_ok` and `tables_ok` speak of flat lists.
#[repr(C)]
#[derive(Clone, Copy)]
pub struct Plan {
    pub counts: Counts,
    pub jobs: [u16; JOBS],
    pub edges: [u8; ENDS],
    pub tables: [u8; ENTRIES],
}

impl Plan {
    /// No job: the idle mark of the tables and of the job ordered last.
    pub const IDLE: u8 = joblist::Table::IDLE;

    /// The level of a high job.
    pub const HIGH: u16 = 1;

    /// All zero.
    #[tactic(auto, unfolding(crate::specs::Plan::no_plan))]
    pub fn zero() -> Self
        ensures { result ≡ no_plan first_edition }
    {
        Plan {
            counts: Counts { len: 0, n: 0, m: 0 },
            jobs: [0u16; JOBS],
            edges: [0u8; ENDS],
            tables: [0u8; ENTRIES],
        }
    }

    /// Its parts, lent.
    pub fn parts(&self) -> PlanParts<'_>
        ensures { plan_of result ≡ self.now }
    {
        PlanParts {
            counts: self.counts,
            jobs: &self.jobs,
            edges: &self.edges,
            tables: &self.tables,
        }
    }
}

/// Number k of job j.
pub fn number(jobs: &[u16; JOBS], j: usize, k: usize) -> u16
    requires { (j < first_edition.jobs) × (k < 5) }
    ensures { result ≡ number_in jobs.now j k }
{
    jobs[NUMBERS * j + k]
}
