//! Table HI. All functions here are inner ones: they are called on lists that the list's check accepts, and on tables of L bytes.
#![tactic(auto)]

ghost use Rattle.std.specs.Prelude.{◌≡◌, [], ◌∷◌, ◌++◌, ℕ, ◌+◌, ◌*◌, ◌<◌, ◌≤◌, length, replicate, MatchOption};
ghost use Rattle.basics.specs.Units.{units_of};
ghost use Rattle.basics.specs.Limits.{first_edition};
ghost use Rattle.joblist.specs.Fields.{slots};
ghost use Rattle.hitable.specs.TableHi.{is_high, turn, owing, hi_at};

use joblist::{MOST_JOBS, MOST_SLOTS, high_of, jobs_of, level_of, ordinary_of};
use late::{List, one_more};

// Whether x is a high job.
#[tactic(auto, unfolding(crate::specs::TableHi::is_high))]
fn is_high(list: List<'_>, x: u8) -> bool
    ensures { result ≡ is_high list.entry.bytes.now x }
{
    let j = usize::from(x);
    j < jobs_of(list.bytes) && level_of(list.bytes, j) == 1
}

const ROOM: usize = 2 * MOST_SLOTS;

// A run of owed units: one of a job, and so many further ones of it.
#[derive(Clone, Copy)]
struct Run {
    unit: u8,
    more: u16,
}

// A row of owed units, its front first, as the runs from head to tail - 1. It begins in the middle of its room; a slot adds at most one run at each
// end, so that nothing is ever cut off. An array: there is no heap here.
#[derive(Drop)]
struct Row {
    runs: [Run; ROOM],
    head: usize,
    tail: usize,
    ghost in_order: { head ≤ tail },
    ghost in_room: { tail ≤ 2 * first_edition.slots },
}

impl Row {
    ghost use Rattle.hitable.specs.Runs.{owed};

    fn new() -> Self
        ensures { (owed result ≡ []) × (result.head ≡ first_edition.slots) × (result.tail ≡ first_edition.slots) }
    {
        Row {
            runs: [Run { unit: 0, more: 0 }; ROOM],
            head: MOST_SLOTS,
            tail: MOST_SLOTS,
        }
    }

    // One unit more at the back.
    fn push_back(&mut self, unit: u8)
        requires { self.old.tail < 2 * first_edition.slots }
        ensures row { owed self.new ≡ owed self.old ++ (unit ∷ []) }
        ensures ends { (self.new.head ≡ self.old.head) × (self.new.tail ≡ self.old.tail + 1) }
    {
        self.runs[self.tail] = Run { unit, more: 0 };
        self.tail += 1;
    }

    // So many units to the front.
    fn push_front(&mut self, unit: u8, count: u16)
        requires { 1 ≤ self.old.head }
        ensures row { owed self.new ≡ replicate count unit ++ owed self.old }
        ensures ends { (self.old.head ≤ self.new.head + 1) × (self.new.tail ≡ self.old.tail) }
    {
        if count > 0 {
            self.head -= 1;
            self.runs[self.head] = Run {
                unit,
                more: count - 1,
            };
        }
    }

    // The front unit is taken off.
    fn pop_front(&mut self) -> Option<u8>
        ensures row { MatchOption result ((owed self.old ≡ []) × (owed self.new ≡ [])) (λ unit. owed self.old ≡ unit ∷ owed self.new) }
        ensures ends { (self.old.head ≤ self.new.head) × (self.new.tail ≡ self.old.tail) }
    {
        if self.head == self.tail {
            return None;
        }
        let Run { unit, more } = self.runs[self.head];
        if more == 0 {
            self.head += 1;
        } else {
            self.runs[self.head] = Run {
                unit,
                more: more - 1,
            };
        }
        Some(unit)
    }

    // The unit for a slot where table LO has x and THI, as first made, y.
    #[tactic(auto, unfolding(crate::specs::TableHi::turn))]
    fn turn(&mut self, list: List<'_>, x: u8, y: u8) -> u8
        requires { self.old.tail < 2 * first_edition.slots }
        ensures unit { result ≡ (turn list.entry.bytes.now x y (owed self.old)).unit }
        ensures row { owed self.new ≡ (turn list.entry.bytes.now x y (owed self.old)).row }
        ensures ends { (self.old.head ≤ self.new.head) × (self.new.tail ≤ self.old.tail + 1) }
    {
        if is_high(list, x) {
            if y == x {
                return x;
            }
            self.push_back(x);
        }
        self.pop_front().unwrap_or(x)
    }
}

// The further units of u where it has had its CLO-th: CHI - CLO, otherwise none.
#[tactic(auto, using(crate::proofs::Laws::owing_more, crate::proofs::Laws::owing_not, crate::proofs::Laws::owing_idle))]
fn further_of(list: List<'_>, placed: &[u16; MOST_JOBS], u: u8) -> u16
    ensures { (row : _) → owing list.entry.bytes.now u (units_of placed.now u) row ≡ replicate result u ++ row }
{
    let j = usize::from(u);
    if j < jobs_of(list.bytes) {
        let clo = ordinary_of(list.bytes, j);
        if usize::from(placed[j]) == clo {
            return (high_of(list.bytes, j) - clo) as u16;
        }
    }
    0
}

/// Table HI into out, from table LO and THI as first made. By the slot's number: three tables are read and written at one slot.
pub fn table_hi(list: List<'_>, lo: &[u8], thi: &[u8], out: &mut [u8])
    requires { (length lo.now ≡ slots list.bytes.now) × (length thi.now ≡ slots list.bytes.now) × (length out.old ≡ slots list.bytes.now) }
    ensures { out.new ≡ (hi_at list.entry.bytes.now lo.now thi.now out.old (slots list.entry.bytes.now)).table }
{
    let n = jobs_of(list.bytes);
    let mut row = Row::new();
    let mut placed = [0u16; MOST_JOBS];
    for (t, unit) in out.iter_mut().enumerate() {
        *unit = row.turn(list, lo[t], thi[t]);
        placed = one_more(n, placed, usize::from(*unit));
        row.push_front(*unit, further_of(list, &placed, *unit));
    }
}
