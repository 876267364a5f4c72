//! The dispatcher's state, as far as it is numbers, and each thing that a step does to it. It goes by value and is handed
//! back; the jobs' counts and marks, an array each, are lent beside it and change where they stand.
ghost use Rattle.std.specs.Prelude.{◌≡◌, ◌<◌, ◌≢◌};
ghost use Rattle.basics.specs.Limits.{first_edition};
ghost use Rattle.basics.specs.Marks.{idle};
ghost use Rattle.parts.specs.Marks.{SameLoan};
ghost use Rattle.parts.specs.Scan.{choice_in};
ghost use Rattle.machine.specs.Run.{lent_run, with_high, with_halted, fresh_head, no_head};
ghost use Rattle.machine.specs.Machine.{ordered_head, refused_head, open_frame_of, book_of, move_of};

use crate::answer::{Answer, Why};
use joblist::MOST_JOBS;
use parts::edges::Edges;
use parts::lent::Marks;
use parts::plan::{CLO, JOBS, LEVEL, Plan, number};
use parts::scan;

/// The slot, the last tick taken, the job ordered last, the mode (HI where `high` is set) and the halted mark. Marks are
/// bytes: 0 is clear, anything else set. So every memory content is a head. No step looks at `spare`, or changes it.
#[repr(C)]
#[derive(Clone, Copy)]
pub struct Head {
    pub slot: u16,
    pub last: u16,
    pub ordered: u8,
    pub high: u8,
    pub halted: u8,
    pub spare: u8,
}

/// An answer beside the head that it leaves.
#[derive(Clone, Copy)]
pub struct Turned {
    pub answer: Answer,
    pub head: Head,
}

impl Head {
    /// At opening: the tick before the first is taken, at slot L-1 with no job ordered.
    #[tactic(auto, unfolding(crate::specs::Run::fresh_head, crate::specs::Tick::difference))]
    pub fn fresh(len: u16, first: u16) -> Self
        ensures { result ≡ fresh_head len first }
    {
        Head {
            slot: len.saturating_sub(1),
            last: first.wrapping_sub(1),
            ordered: Plan::IDLE,
            high: 0,
            halted: 0,
            spare: 0,
        }
    }

    /// All zero.
    #[tactic(auto, unfolding(crate::specs::Run::no_head))]
    pub fn zero() -> Self
        ensures { result ≡ no_head }
    {
        Head {
            slot: 0,
            last: 0,
            ordered: 0,
            high: 0,
            halted: 0,
            spare: 0,
        }
    }

    // The rest of the frame is HI.
    fn switch(mut self) -> Self
        ensures { result ≡ with_high self 1 }
    {
        self.high = 1;
        self
    }

    fn halt(mut self) -> Self
        ensures { result ≡ with_halted self 1 }
    {
        self.halted = 1;
        self
    }

    // The next frame, fresh in LO.
    fn open_frame<'a, 'b>(mut self, marks: &'a mut Marks<'b>) -> Self
        ensures is { lent_run result marks.new ≡ open_frame_of first_edition (lent_run self marks.old) }
        ensures same_loan { SameLoan marks.old marks.new }
    {
        *marks.units = [0u16; MOST_JOBS];
        *marks.done = [0u8; MOST_JOBS];
        *marks.cut = [0u8; MOST_JOBS];
        self.slot = 0;
        self.high = 0;
        self
    }

    // The last slot is booked, if a job was ordered.
    #[tactic(auto, using(crate::proofs::Book::joined_as, crate::proofs::Book::book_idle, crate::proofs::Book::book_ended, crate::proofs::Book::book_under, crate::proofs::Book::book_high, crate::proofs::Book::book_switch, crate::proofs::Book::book_cut))]
    pub(crate) fn book<'a, 'b, 'c>(
        self,
        jobs: &'a [u16; JOBS],
        marks: &'b mut Marks<'c>,
        ended: bool,
    ) -> Self
        requires { (self.ordered ≢ idle) → self.ordered < first_edition.jobs }
        ensures is { lent_run result marks.new ≡ book_of first_edition jobs.now (lent_run self marks.old) ended }
        ensures same_loan { SameLoan marks.old marks.new }
    {
        if self.ordered == Plan::IDLE {
            return self;
        }
        let j = usize::from(self.ordered);
        let u = scan::bumped(marks.units[j]);
        marks.units[j] = u;
        if ended {
            marks.done[j] = 1;
            return self;
        }
        if u < number(jobs, j, CLO) {
            return self;
        }
        if number(jobs, j, LEVEL) != Plan::HIGH {
            marks.cut[j] = 1;
            return self;
        }
        if self.high == 0 { self.switch() } else { self }
    }

    // The tick is taken: the next slot, or after slot L-1 the next frame.
    #[tactic(auto, unfolding(crate::specs::Machine::move_of, basics::specs::Choice::pick))]
    pub(crate) fn move_on<'a, 'b>(mut self, len: u16, marks: &'a mut Marks<'b>, tick: u16) -> Self
        requires { self.slot < first_edition.slots }
        ensures is { lent_run result marks.new ≡ move_of first_edition len (lent_run self marks.old) tick }
        ensures same_loan { SameLoan marks.old marks.new }
    {
        let next = self.slot + 1;
        self.last = tick;
        if next < len {
            self.slot = next;
            self
        } else {
            self.open_frame(marks)
        }
    }

    // The named job if it may run, else idle.
    pub(crate) fn order<'a, 'b, 'c>(
        mut self,
        jobs: &'a [u16; JOBS],
        edges: Edges<'a>,
        named: u8,
        marks: &'b Marks<'c>,
    ) -> Turned
        requires { (named ≢ idle) → named < first_edition.jobs }
        ensures { result ≡ ordered_head self (choice_in edges.entry.m jobs.now edges.entry.ends.now named self.slot self.high marks.now.done.now marks.now.cut.now) }
    {
        let x = scan::choice(
            jobs, edges, named, self.slot, self.high, marks.done, marks.cut,
        );
        self.ordered = x;
        Turned {
            answer: Ok(x),
            head: self,
        }
    }

    // A refusal, and what it leaves.
    #[tactic(auto, unfolding(basics::specs::Choice::pick))]
    pub(crate) fn refuse(self, why: Why) -> Turned
        ensures { result ≡ refused_head why self }
    {
        Turned {
            answer: Err(why),
            head: if why.halts() { self.halt() } else { self },
        }
    }
}
