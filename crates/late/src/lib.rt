//! The late tables. All functions here are inner ones: they are called on lists that the list's check accepts, and on tables of L bytes.
#![tactic(auto)]

ghost use Rattle.std.specs.Prelude.{◌≡◌, Bool, true, false, not, ◌&&◌, ℕ, ◌+◌, ◌<◌, ◌≤◌, length, get_or, ltb, leb, Ok, IfSome, unwrap_or};
ghost use Rattle.std.specs.Result.{result_and};
ghost use Rattle.basics.specs.Choice.{earliest, preferred};
ghost use Rattle.basics.specs.Find.{lowest, highest};
ghost use Rattle.basics.specs.Turns.{turns};
ghost use Rattle.basics.specs.Units.{units_of, one_more};
ghost use Rattle.basics.specs.Limits.{first_edition};
ghost use Rattle.basics.specs.Marks.{idle};
ghost use Rattle.joblist.specs.Fields.{jobs, edges, slots, arrival, deadline, ordinary, edge_in};
ghost use Rattle.joblist.specs.Cycle.{reached};
ghost use Rattle.joblist.specs.Accepted.{Accepted};
ghost use Rattle.late.specs.Table.{entry, units, held, empty, waits, marked};
ghost use Rattle.late.specs.Late.{ready, late_at, takes, edf_at, late_answer, holds_next, target, move, moved, late_table, first_units};

use joblist::{
    MOST_JOBS, Table, arrival_of, deadline_of, edge_from, edge_to, edges_of, high_of, jobs_of,
    level_of, ordinary_of,
};

/// A list that the list's check accepts.
#[derive(Clone, Copy)]
pub struct List<'a> {
    pub bytes: &'a [u8],
    ghost accepted: { Accepted first_edition bytes.now },
}

/// A slot at whose opening a job with that deadline is unfinished, and the lowest such job.
#[derive(Clone, Copy)]
pub struct Late {
    pub slot: usize,
    pub job: usize,
}

/// One unit more of job j, where j is one of n jobs.
#[tactic(auto, unfolding(basics::specs::Units::one_more))]
pub fn one_more(n: usize, had: [u16; MOST_JOBS], j: usize) -> [u16; MOST_JOBS]
    requires { (n ≤ first_edition.jobs) × ((i : ℕ) → i < n → units_of had i < 65535) }
    ensures { result ≡ one_more (ltb j n) j had }
{
    let mut r = had;
    if j < n {
        r[j] = had[j] + 1;
    }
    r
}

// The jobs to which an edge comes from a job that passes: one pass over the edges. By number, here and in `undone_of`: fields
// stand at places in the bytes, and there is no slice of edges or jobs to go over.
fn followers<F: Fn(usize) -> bool>(list: List<'_>, passes: F) -> [bool; MOST_JOBS]
    requires { (p : ℕ) → p < jobs list.bytes.now → F.pre passes p }
    ensures { (test : ℕ → Bool) → ((p : ℕ) (b : Bool) → p < jobs list.entry.bytes.now → F.post passes p b → b ≡ test p)
        → (j : ℕ) → marked result j ≡ reached list.entry.bytes.now (jobs list.entry.bytes.now) (edges list.entry.bytes.now) test j }
{
    let s = list.bytes;
    let n = jobs_of(s);
    let mut r = [false; MOST_JOBS];
    for e in 0..edges_of(s) {
        if passes(edge_from(s, n, e)) {
            r[edge_to(s, n, e)] = true;
        }
    }
    r
}

/// The jobs that have an undone predecessor.
pub fn waiting_of(list: List<'_>, undone: &[bool; MOST_JOBS]) -> [bool; MOST_JOBS]
    ensures { (j : ℕ) → marked result j ≡ waits list.entry.bytes.now (marked undone.now) j }
{
    followers(list, |p| undone[p])
}

// The successors of job j.
fn next_of(list: List<'_>, j: usize) -> [bool; MOST_JOBS]
    ensures { (q : ℕ) → marked result q ≡ edge_in list.entry.bytes.now (jobs list.entry.bytes.now) (edges list.entry.bytes.now) j q }
{
    followers(list, |p| p == j)
}

/// The jobs that have had fewer units than they take.
pub fn undone_of<F: Fn(usize) -> usize>(
    list: List<'_>,
    had: &[u16; MOST_JOBS],
    takes: F,
) -> [bool; MOST_JOBS]
    requires { (j : ℕ) → j < jobs list.bytes.now → F.pre takes j }
    ensures { (most : ℕ → ℕ) → ((j k : ℕ) → j < jobs list.entry.bytes.now → F.post takes j k → k ≡ most j)
        → (j : ℕ) → j < jobs list.entry.bytes.now → marked result j ≡ ltb (units_of had.now j) (most j) }
{
    let mut r = [false; MOST_JOBS];
    for j in 0..jobs_of(list.bytes) {
        r[j] = usize::from(had[j]) < takes(j);
    }
    r
}

// The units that job j takes in the late table of level v. A level is a number here and below: `late_table` takes any, as its
// definition does.
#[tactic(auto, unfolding(crate::specs::Late::takes))]
fn takes_of(list: List<'_>, v: usize, j: usize) -> usize
    requires { j < jobs list.bytes.now }
    ensures { result ≡ takes list.entry.bytes.now v j }
{
    if level_of(list.bytes, j) != v {
        return 0;
    }
    if v == 0 {
        return ordinary_of(list.bytes, j);
    }
    high_of(list.bytes, j)
}

// The jobs that are unfinished in the late table of level v.
fn unfinished_of(list: List<'_>, v: usize, had: &[u16; MOST_JOBS]) -> [bool; MOST_JOBS]
    ensures { (j : ℕ) → j < jobs list.entry.bytes.now → marked result j ≡ ltb (units_of had.now j) (takes list.entry.bytes.now v j) }
{
    undone_of(list, had, |j| takes_of(list, v, j))
}

// Whether job j has arrived by slot t, is undone and does not wait.
fn ready_at(
    list: List<'_>,
    undone: &[bool; MOST_JOBS],
    waiting: &[bool; MOST_JOBS],
    t: usize,
    j: usize,
) -> bool
    requires { j < jobs list.bytes.now }
    ensures { result ≡ (leb (arrival list.entry.bytes.now j) t && (marked undone.now j && not (marked waiting.now j))) }
{
    arrival_of(list.bytes, j) <= t && undone[j] && !waiting[j]
}

// Of the choice so far and a ready job j: j where nothing is chosen yet or its deadline is earlier.
fn sooner(list: List<'_>, best: Option<usize>, j: usize) -> usize
    requires { (j < jobs list.bytes.now) × IfSome best (λ b. b < jobs list.bytes.now) }
    ensures job { result < jobs list.entry.bytes.now }
    ensures preferred { result ≡ preferred (λ _. true) (deadline list.entry.bytes.now) (unwrap_or best idle) j }
{
    match best {
        Some(b) if deadline_of(list.bytes, b) <= deadline_of(list.bytes, j) => b,
        _ => j,
    }
}

// The job for slot t: of the undone jobs that are ready the one with the earliest deadline. By hand: the clause of `min_by_key`
// does not say that of several the first is taken.
fn choose(list: List<'_>, undone: &[bool; MOST_JOBS], t: usize) -> Option<usize>
    ensures job { IfSome result (λ j. j < jobs list.entry.bytes.now) }
    ensures earliest { unwrap_or result idle ≡ earliest (ready list.entry.bytes.now (marked undone.now) t) (deadline list.entry.bytes.now) (jobs list.entry.bytes.now) }
{
    let waiting = waiting_of(list, undone);
    let mut best = None;
    for j in 0..jobs_of(list.bytes) {
        if ready_at(list, undone, &waiting, t, j) {
            best = Some(sooner(list, best, j));
        }
    }
    best
}

// Earliest deadline first over the level v, into out.
fn edf(list: List<'_>, v: usize, out: &mut [u8])
    requires { length out.old ≡ slots list.bytes.now }
    ensures { out.new ≡ edf_at list.entry.bytes.now v out.old (slots list.entry.bytes.now) }
{
    let n = jobs_of(list.bytes);
    let mut had = [0u16; MOST_JOBS];
    for (t, slot) in out.iter_mut().enumerate() {
        let job = choose(list, &unfinished_of(list, v, &had), t);
        *slot = job.map_or(Table::IDLE, |j| j as u8);
        had = one_more(n, had, usize::from(*slot));
    }
}

// The lowest undone job whose deadline is slot t.
fn late_in(list: List<'_>, undone: &[bool; MOST_JOBS], t: usize) -> Result<(), Late>
    ensures { result ≡ turns result_and (Ok tt) (late_at list.entry.bytes.now (marked undone.now) t) (jobs list.entry.bytes.now) 0 }
{
    let s = list.bytes;
    let late = (0..jobs_of(s)).find(|&j| deadline_of(s, j) == t && undone[j]);
    late.map_or(Ok(()), |job| Err(Late { slot: t, job }))
}

// The first slot, to L, at whose opening a job with that deadline is unfinished.
fn late_of(list: List<'_>, v: usize, table: &[u8]) -> Result<(), Late>
    requires { length table.now ≡ slots list.bytes.now }
    ensures { result ≡ late_answer list.entry.bytes.now v table.now }
{
    let n = jobs_of(list.bytes);
    let mut had = [0u16; MOST_JOBS];
    for (t, &entry) in table.iter().enumerate() {
        late_in(list, &unfinished_of(list, v, &had), t)?;
        had = one_more(n, had, usize::from(entry));
    }
    late_in(list, &unfinished_of(list, v, &had), table.len())
}

// Whether slot x is held by one of the marked jobs.
fn is_held_by(list: List<'_>, table: &[u8], marks: &[bool; MOST_JOBS], x: usize) -> bool
    requires { x < length table.now }
    ensures { result ≡ (held list.entry.bytes.now table.now x && marked marks.now (entry table.now x)) }
{
    let j = usize::from(table[x]);
    j < jobs_of(list.bytes) && marks[j]
}

// The lowest slot below the deadline of job j that is held by a successor, or the deadline. Here and below the table stands beside
// the list, and its length in a clause: of a struct that holds both, the proof cannot lend a field behind `&mut self`.
fn limit_of(list: List<'_>, table: &[u8], j: usize) -> usize
    requires { (length table.now ≡ slots list.bytes.now) × (j < jobs list.bytes.now) }
    ensures { result ≡ lowest (holds_next list.entry.bytes.now table.now j) (deadline list.entry.bytes.now j) 0 }
{
    let next = next_of(list, j);
    let d = deadline_of(list.bytes, j);
    let held = (0..d).find(|&x| is_held_by(list, table, &next, x));
    held.unwrap_or(d)
}

// The highest empty slot below b, or t. By hand: the library has no law of `rposition`, and the proof did not close.
fn highest_empty(list: List<'_>, table: &[u8], b: usize, t: usize) -> usize
    requires { b ≤ length table.now }
    ensures { result ≡ highest (empty list.entry.bytes.now table.now) t b }
{
    let n = jobs_of(list.bytes);
    for x in (0..b).rev() {
        if n <= usize::from(table[x]) {
            return x;
        }
    }
    t
}

// Where the unit of job j goes that stood in slot t.
fn target_of(list: List<'_>, table: &[u8], j: usize, t: usize) -> usize
    requires { (length table.now ≡ slots list.bytes.now) × (j < jobs list.bytes.now) × (t < slots list.bytes.now) }
    ensures { (result ≡ target list.entry.bytes.now table.now j t) × (result < slots list.entry.bytes.now) }
{
    let b = limit_of(list, table, j);
    highest_empty(list, table, b, t)
}

// The unit of a slot moves; its own slot counts as empty.
fn move_one(list: List<'_>, table: &mut [u8], own: usize)
    requires { (length table.old ≡ slots list.bytes.now) × (own < slots list.bytes.now) }
    ensures { table.new ≡ move list.entry.bytes.now table.old own }
{
    let v = table[own];
    let j = usize::from(v);
    if j < jobs_of(list.bytes) {
        table[own] = Table::IDLE;
        let x = target_of(list, table, j, own);
        table[x] = v;
    }
}

// The units of all slots move, from the last slot to the first.
fn move_all(list: List<'_>, table: &mut [u8])
    requires { length table.old ≡ slots list.bytes.now }
    ensures { table.new ≡ moved list.entry.bytes.now table.old (slots list.entry.bytes.now) }
{
    for own in (0..table.len()).rev() {
        move_one(list, table, own);
    }
}

/// The late table of level v, and the first late job.
pub fn late_table(list: List<'_>, v: usize, out: &mut [u8]) -> Result<(), Late>
    requires { length out.old ≡ slots list.bytes.now }
    ensures { (result ≡ late_answer list.entry.bytes.now v (edf_at list.entry.bytes.now v out.old (slots list.entry.bytes.now)))
        × (out.new ≡ late_table list.entry.bytes.now v out.old) }
{
    edf(list, v, out);
    let r = late_of(list, v, out);
    move_all(list, out);
    r
}

// Whether one unit more of j is one of its first CLO.
fn is_first(list: List<'_>, had: &[u16; MOST_JOBS], j: usize) -> bool
    ensures { result ≡ (ltb j (jobs list.entry.bytes.now) && ltb (units_of had.now j) (ordinary list.entry.bytes.now j)) }
{
    j < jobs_of(list.bytes) && usize::from(had[j]) < ordinary_of(list.bytes, j)
}

/// The first units of each job stay, as many as its ordinary budget.
pub fn keep_first(list: List<'_>, table: &mut [u8])
    requires { length table.old ≡ slots list.bytes.now }
    ensures { table.new ≡ first_units list.entry.bytes.now table.old (slots list.entry.bytes.now) }
{
    let n = jobs_of(list.bytes);
    let mut had = [0u16; MOST_JOBS];
    for entry in table.iter_mut() {
        let j = usize::from(*entry);
        if !is_first(list, &had, j) {
            *entry = Table::IDLE;
        }
        had = one_more(n, had, j);
    }
}
