//! A job list in bytes: its fields, its limits, and the check that refuses what is no list.
#![tactic(auto)]

ghost use Rattle.std.specs.Prelude.{◌≡◌, Bool, true, false, ℕ, ◌+◌, ◌<◌, ◌≤◌, length, get_or};
ghost use Rattle.basics.specs.Chain.{each};
ghost use Rattle.basics.specs.Bytes.{u16_at};
ghost use Rattle.basics.specs.Limits.{first_edition};
ghost use Rattle.joblist.specs.Fields.{head_bytes, job_bytes, edge_bytes, job_at, edge_at, list_bytes, jobs, edges, slots, head_zero, arrival, deadline, ordinary, high, level, job_zero, edge_from, edge_to};
ghost use Rattle.joblist.specs.Cycle.{reached, cyclic, Named};
ghost use Rattle.joblist.specs.Answer.{within, counts_answer, good_times, good_budgets, fields_answer, zero_answer, job_answer, largest, rising, good_pair, edge_answer, body_answer, front_answer, list_answer};
ghost use Rattle.joblist.specs.Numbers.{number_of, place_of};
ghost use Rattle.joblist.specs.declared.Place.TheVariants.{Nowhere};

use refusal::Refusal;

/// The most jobs. The limits of the first edition stand here, and nowhere else.
pub const MOST_JOBS: usize = 64;

pub const MOST_EDGES: usize = 256;

pub const MOST_SLOTS: usize = 1024;

pub const MOST_BUDGET: usize = 1024;

/// A slot table: one byte a slot, a job number or the idle mark.
#[derive(Clone, Copy)]
pub struct Table;

impl Table {
    /// Names no job.
    pub const IDLE: u8 = 255;
}

/// The bytes of the head; those of a job and of an edge follow.
pub const HEAD_BYTES: usize = 8;

pub const JOB_BYTES: usize = 10;

pub const EDGE_BYTES: usize = 2;

/// Why a list is refused, with the job or the edge where it has a place.
#[derive(Clone, Copy, Debug, PartialEq, Eq)]
pub enum Why {
    Short,
    Jobs,
    Edges,
    Slots,
    Length,
    Zero,
    Level(usize),
    Times(usize),
    Budgets(usize),
    Pair(usize),
    LowToHigh(usize),
    Cycle,
}

/// Where a list is refused. `Nowhere` is a case of its own, as `place_of` has it, and so is `nowhere` of each refusal: the
/// definitions of places speak of it.
#[derive(Clone, Copy, Debug, PartialEq, Eq)]
pub enum Place {
    Nowhere,
    AtJob(usize),
    AtEdge(usize),
}

impl Refusal for Why {
    type Place = Place;

    ghost number = { number_of };

    ghost place = { place_of };

    ghost nowhere = { Nowhere };

    fn number(self) -> usize {
        match self {
            Why::Short => 40,
            Why::Jobs => 1,
            Why::Edges => 2,
            Why::Slots => 3,
            Why::Length => 43,
            Why::Zero => 44,
            Why::Level(_) => 6,
            Why::Times(_) => 4,
            Why::Budgets(_) => 5,
            Why::Pair(_) => 7,
            Why::LowToHigh(_) => 8,
            Why::Cycle => 9,
        }
    }

    fn place(self) -> Place {
        match self {
            Why::Level(j) | Why::Times(j) | Why::Budgets(j) => Place::AtJob(j),
            Why::Pair(e) | Why::LowToHigh(e) => Place::AtEdge(e),
            Why::Short
            | Why::Jobs
            | Why::Edges
            | Why::Slots
            | Why::Length
            | Why::Zero
            | Why::Cycle => Place::Nowhere,
        }
    }

    fn nowhere() -> Place {
        Place::Nowhere
    }
}

// From here to `edge_to`, inner functions that read fields where they stand; crates above use them too. Those of the head, of a
// job and of an edge differ in an offset alone; each keeps its name, its definition and what it asks, since docs/PROMISES.md
// names them.

/// The 16 bits at i.
#[tactic(auto, unfolding(basics::specs::Bytes::u16_at))]
pub fn u16_at(s: &[u8], i: usize) -> usize
    requires { i + 1 < length s.now }
    ensures { (result ≡ u16_at s.now i) × (result < 65536) }
{
    usize::from(u16::from_le_bytes([s[i], s[i + 1]]))
}

/// The job count.
pub fn jobs_of(s: &[u8]) -> usize
    requires { head_bytes ≤ length s.now }
    ensures { (result ≡ jobs s.now) × (result < 65536) }
{
    u16_at(s, 0)
}

/// The edge count.
pub fn edges_of(s: &[u8]) -> usize
    requires { head_bytes ≤ length s.now }
    ensures { (result ≡ edges s.now) × (result < 65536) }
{
    u16_at(s, 2)
}

/// The frame length L.
pub fn slots_of(s: &[u8]) -> usize
    requires { head_bytes ≤ length s.now }
    ensures { (result ≡ slots s.now) × (result < 65536) }
{
    u16_at(s, 4)
}

/// Job j's arrival.
pub fn arrival_of(s: &[u8], j: usize) -> usize
    requires { job_at j + job_bytes ≤ length s.now }
    ensures { (result ≡ arrival s.now j) × (result < 65536) }
{
    u16_at(s, HEAD_BYTES + JOB_BYTES * j)
}

/// Job j's deadline.
pub fn deadline_of(s: &[u8], j: usize) -> usize
    requires { job_at j + job_bytes ≤ length s.now }
    ensures { (result ≡ deadline s.now j) × (result < 65536) }
{
    u16_at(s, HEAD_BYTES + JOB_BYTES * j + 2)
}

/// Job j's ordinary budget.
pub fn ordinary_of(s: &[u8], j: usize) -> usize
    requires { job_at j + job_bytes ≤ length s.now }
    ensures { (result ≡ ordinary s.now j) × (result < 65536) }
{
    u16_at(s, HEAD_BYTES + JOB_BYTES * j + 4)
}

/// Job j's high budget.
pub fn high_of(s: &[u8], j: usize) -> usize
    requires { job_at j + job_bytes ≤ length s.now }
    ensures { (result ≡ high s.now j) × (result < 65536) }
{
    u16_at(s, HEAD_BYTES + JOB_BYTES * j + 6)
}

/// Job j's level.
pub fn level_of(s: &[u8], j: usize) -> usize
    requires { job_at j + job_bytes ≤ length s.now }
    ensures { (result ≡ level s.now j) × (result < 256) }
{
    usize::from(s[HEAD_BYTES + JOB_BYTES * j + 8])
}

/// The job that edge e comes from, after n jobs.
pub fn edge_from(s: &[u8], n: usize, e: usize) -> usize
    requires { edge_at n e + edge_bytes ≤ length s.now }
    ensures { (result ≡ edge_from s.now n e) × (result < 256) }
{
    usize::from(s[HEAD_BYTES + JOB_BYTES * n + EDGE_BYTES * e])
}

/// The job that it goes to.
pub fn edge_to(s: &[u8], n: usize, e: usize) -> usize
    requires { edge_at n e + edge_bytes ≤ length s.now }
    ensures { (result ≡ edge_to s.now n e) × (result < 256) }
{
    usize::from(s[HEAD_BYTES + JOB_BYTES * n + EDGE_BYTES * e + 1])
}

// Whether x is from 1 to most.
#[tactic(auto, unfolding(crate::specs::Answer::within))]
fn in_range(x: usize, most: usize) -> bool
    ensures { result ≡ within most x }
{
    (1..=most).contains(&x)
}

// The counts of a list, and the zero beside them.
#[derive(Clone, Copy)]
struct Head {
    jobs: usize,
    edges: usize,
    slots: usize,
    zero: usize,
}

impl Head {
    fn of(s: &[u8]) -> Head
        requires { head_bytes ≤ length s.now }
        ensures { result ≡ record { jobs = jobs s.now; edges = edges s.now; slots = slots s.now; zero = head_zero s.now } }
    {
        Head {
            jobs: jobs_of(s),
            edges: edges_of(s),
            slots: slots_of(s),
            zero: u16_at(s, 6),
        }
    }

    // Of `len` bytes, where the counts give `whole`.
    #[tactic(auto, unfolding(crate::specs::Answer::counts_answer))]
    fn check(self, len: usize, whole: usize) -> Result<(), Why>
        ensures { result ≡ counts_answer first_edition len whole self.jobs self.edges self.slots self.zero }
    {
        if !in_range(self.jobs, MOST_JOBS) {
            return Err(Why::Jobs);
        }
        if MOST_EDGES < self.edges {
            return Err(Why::Edges);
        }
        if !in_range(self.slots, MOST_SLOTS) {
            return Err(Why::Slots);
        }
        if len != whole {
            return Err(Why::Length);
        }
        if self.zero != 0 {
            return Err(Why::Zero);
        }
        Ok(())
    }
}

// A job's fields.
#[derive(Clone, Copy)]
struct Job {
    arrival: usize,
    deadline: usize,
    ordinary: usize,
    high: usize,
    level: usize,
}

impl Job {
    #[tactic(auto, unfolding(crate::specs::Answer::good_times))]
    fn has_good_times(self) -> bool
        ensures { result ≡ good_times first_edition self.arrival self.deadline }
    {
        self.arrival < self.deadline && self.deadline <= MOST_SLOTS
    }

    #[tactic(auto, unfolding(crate::specs::Answer::good_budgets))]
    fn has_good_budgets(self) -> bool
        ensures { result ≡ good_budgets first_edition self.level self.ordinary self.high }
    {
        1 <= self.ordinary
            && self.ordinary <= self.high
            && self.high <= MOST_BUDGET
            && (self.level == 1 || self.ordinary == self.high)
    }

    // As job j.
    #[tactic(auto, unfolding(crate::specs::Answer::fields_answer))]
    fn check(self, j: usize) -> Result<(), Why>
        ensures { result ≡ fields_answer first_edition j self.level self.arrival self.deadline self.ordinary self.high }
    {
        if 1 < self.level {
            return Err(Why::Level(j));
        }
        if !self.has_good_times() {
            return Err(Why::Times(j));
        }
        if !self.has_good_budgets() {
            return Err(Why::Budgets(j));
        }
        Ok(())
    }
}

// What follows the head, in bytes that hold all of it. Its loops go by number: fields stand at places in the bytes, and there is
// no slice of jobs or edges to go over.
#[derive(Clone, Copy)]
struct Body<'a> {
    bytes: &'a [u8],
    jobs: usize,
    edges: usize,
    ghost few: { jobs ≤ first_edition.jobs },
    ghost fits: { list_bytes jobs edges ≤ length bytes.now },
}

impl Body<'_> {
    // The zero bytes of the jobs.
    #[tactic(auto, using(basics::proofs::Chain::turn_good, basics::proofs::Chain::turn_no, basics::proofs::Chain::turn_end), unfolding(crate::specs::Answer::zero_answer))]
    fn check_zeros(&self) -> Result<(), Why>
        ensures { result ≡ each self.now.jobs (zero_answer self.now.bytes.now) }
    {
        for j in 0..self.jobs {
            if self.bytes[HEAD_BYTES + JOB_BYTES * j + 9] != 0 {
                return Err(Why::Zero);
            }
        }
        Ok(())
    }

    fn job(&self, j: usize) -> Job
        requires { j < self.now.jobs }
        ensures { result ≡ record { arrival = arrival self.now.bytes.now j; deadline = deadline self.now.bytes.now j; ordinary = ordinary self.now.bytes.now j; high = high self.now.bytes.now j; level = level self.now.bytes.now j } }
    {
        Job {
            arrival: arrival_of(self.bytes, j),
            deadline: deadline_of(self.bytes, j),
            ordinary: ordinary_of(self.bytes, j),
            high: high_of(self.bytes, j),
            level: level_of(self.bytes, j),
        }
    }

    fn check_job(&self, j: usize) -> Result<(), Why>
        requires { j < self.now.jobs }
        ensures { result ≡ job_answer first_edition (high self.now.bytes.now) self.now.bytes.now j }
    {
        self.job(j).check(j)
    }

    // `check_edges` below has the same shape: a function for both would take the check as a closure and read no plainer.
    #[tactic(auto, using(basics::proofs::Chain::turn_good, basics::proofs::Chain::turn_no, basics::proofs::Chain::turn_end))]
    fn check_jobs(&self) -> Result<(), Why>
        ensures { result ≡ each self.now.jobs (job_answer first_edition (high self.now.bytes.now) self.now.bytes.now) }
    {
        for j in 0..self.jobs {
            self.check_job(j)?;
        }
        Ok(())
    }

    // The largest deadline.
    #[tactic(auto, using(crate::proofs::Steps::largest_zero, crate::proofs::Steps::largest_step))]
    fn longest(&self) -> usize
        ensures { result ≡ largest self.now.bytes.now self.now.jobs }
    {
        let mut longest = 0;
        for j in 0..self.jobs {
            longest = longest.max(deadline_of(self.bytes, j));
        }
        longest
    }

    // The jobs of edge e.
    fn edge(&self, e: usize) -> (usize, usize)
        requires { e < self.now.edges }
        ensures { result ≡ (edge_from self.now.bytes.now self.now.jobs e, edge_to self.now.bytes.now self.now.jobs e) }
    {
        (
            edge_from(self.bytes, self.jobs, e),
            edge_to(self.bytes, self.jobs, e),
        )
    }

    // Whether edge e comes after the edge before it.
    #[tactic(auto, unfolding(crate::specs::Answer::rising))]
    fn rises(&self, e: usize) -> bool
        requires { e < self.now.edges }
        ensures { result ≡ rising self.now.bytes.now self.now.jobs e }
    {
        e == 0 || self.edge(e - 1) < self.edge(e)
    }

    // Whether an edge may go from p to q.
    #[tactic(auto, unfolding(crate::specs::Answer::good_pair))]
    fn is_good_pair(&self, p: usize, q: usize, in_order: bool) -> bool
        ensures { result ≡ good_pair self.now.jobs p q in_order }
    {
        p < self.jobs && q < self.jobs && p != q && in_order
    }

    #[tactic(auto, unfolding(crate::specs::Answer::edge_answer, crate::specs::Answer::good_pair))]
    fn check_edge(&self, e: usize) -> Result<(), Why>
        requires { e < self.now.edges }
        ensures { result ≡ edge_answer self.now.bytes.now self.now.jobs e }
    {
        let (p, q) = self.edge(e);
        if !self.is_good_pair(p, q, self.rises(e)) {
            return Err(Why::Pair(e));
        }
        if level_of(self.bytes, p) < level_of(self.bytes, q) {
            return Err(Why::LowToHigh(e));
        }
        Ok(())
    }

    #[tactic(auto, using(basics::proofs::Chain::turn_good, basics::proofs::Chain::turn_no, basics::proofs::Chain::turn_end))]
    fn check_edges(&self) -> Result<(), Why>
        ensures { result ≡ each self.now.edges (edge_answer self.now.bytes.now self.now.jobs) }
    {
        for e in 0..self.edges {
            self.check_edge(e)?;
        }
        Ok(())
    }

    // The jobs to which an edge comes from a job that is alive: one pass over the edges.
    fn round(&self, alive: [bool; MOST_JOBS]) -> [bool; MOST_JOBS]
        requires { Named self.now.bytes.now self.now.jobs self.now.edges }
        ensures { (j : ℕ) → j < self.now.jobs → get_or result j false ≡ reached self.now.bytes.now self.now.jobs self.now.edges (λ i. get_or alive i false) j }
    {
        let mut next = [false; MOST_JOBS];
        for e in 0..self.edges {
            let (p, q) = self.edge(e);
            if alive[p] {
                next[q] = true;
            }
        }
        next
    }

    // Whether the edges form a cycle: whether a job is alive after as many rounds as there are jobs.
    fn is_cyclic(&self) -> bool
        requires { Named self.now.bytes.now self.now.jobs self.now.edges }
        ensures { result ≡ cyclic self.now.bytes.now self.now.jobs self.now.edges }
    {
        let mut alive = [true; MOST_JOBS];
        for k in 0..self.jobs {
            alive = self.round(alive);
        }
        alive[..self.jobs].contains(&true)
    }

    #[tactic(auto, unfolding(crate::specs::Answer::body_answer))]
    fn check(&self) -> Result<(), Why>
        ensures { result ≡ body_answer first_edition (high self.now.bytes.now) self.now.bytes.now self.now.jobs self.now.edges }
    {
        self.check_zeros()?;
        self.check_jobs()?;
        if slots_of(self.bytes) != self.longest() {
            return Err(Why::Slots);
        }
        self.check_edges()?;
        if self.is_cyclic() {
            return Err(Why::Cycle);
        }
        Ok(())
    }
}

/// Inner: a list at the front of the bytes, where the counts give `whole` bytes. A plan is checked by it too.
#[tactic(auto, using(crate::proofs::Rows::counts_good), unfolding(crate::specs::Answer::front_answer))]
pub fn check_front(s: &[u8], whole: usize) -> Result<(), Why>
    requires { (head_bytes ≤ length s.now) × (list_bytes (jobs s.now) (edges s.now) ≤ whole) }
    ensures { result ≡ front_answer first_edition (high s.now) s.now whole }
{
    let head = Head::of(s);
    head.check(s.len(), whole)?;
    let body = Body {
        bytes: s,
        jobs: head.jobs,
        edges: head.edges,
    };
    body.check()
}

/// The whole list.
#[tactic(auto, unfolding(crate::specs::Answer::list_answer))]
pub fn check_list(list: &[u8]) -> Result<(), Why>
    ensures { result ≡ list_answer first_edition list.now }
{
    if list.len() < HEAD_BYTES {
        return Err(Why::Short);
    }
    check_front(
        list,
        HEAD_BYTES + JOB_BYTES * jobs_of(list) + EDGE_BYTES * edges_of(list),
    )
}
