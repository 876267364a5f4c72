//! The state: a plan, which no step changes; the head; and the counts and marks of the jobs. It has no padding.
ghost use Rattle.std.specs.Prelude.{◌≡◌};
ghost use Rattle.basics.specs.Limits.{first_edition};
ghost use Rattle.dispatch.specs.State.{fresh_of, no_state, step_of};

use joblist::MOST_JOBS;
use machine::answer::Answer;
use machine::head::Head;
use machine::step::step;
use parts::lent::Marks;
use parts::plan::Plan;

/// What C keeps for a plan that runs: arrays of fixed size, by job, and no padding.
#[repr(C)]
#[derive(Clone, Copy)]
pub struct State {
    pub plan: Plan,
    pub head: Head,
    pub units: [u16; MOST_JOBS],
    pub done: [u8; MOST_JOBS],
    pub cut: [u8; MOST_JOBS],
}

#[derive(Clone, Copy)]
pub struct Stepped {
    pub answer: Answer,
    pub state: State,
}

impl State {
    /// At opening: nothing has run.
    #[tactic(auto, unfolding(crate::specs::State::fresh_of, machine::specs::Machine::fresh_run))]
    pub fn fresh(plan: Plan, first: u16) -> Self
        ensures { result ≡ fresh_of first_edition plan first }
    {
        // the head first: a plan that is read after it was put into the state would be copied, and take its stack twice
        let head = Head::fresh(plan.counts.len, first);
        State {
            plan,
            head,
            units: [0u16; MOST_JOBS],
            done: [0u8; MOST_JOBS],
            cut: [0u8; MOST_JOBS],
        }
    }

    /// All zero: a step on it says 37.
    #[tactic(auto, unfolding(crate::specs::State::no_state))]
    pub fn zero() -> Self
        ensures { result ≡ no_state first_edition }
    {
        State {
            plan: Plan::zero(),
            head: Head::zero(),
            units: [0u16; MOST_JOBS],
            done: [0u8; MOST_JOBS],
            cut: [0u8; MOST_JOBS],
        }
    }

    /// One tick, with whether the job ordered last signalled its end. By value: whoever keeps a state in one place calls
    /// `machine::step` on its parts, which copies no array.
    pub fn step(mut self, tick: u16, ended: bool) -> Stepped
        ensures { result ≡ step_of first_edition self tick ended }
    {
        let mut marks = Marks {
            units: &mut self.units,
            done: &mut self.done,
            cut: &mut self.cut,
        };
        let turned = step(self.plan.parts(), self.head, &mut marks, tick, ended);
        self.head = turned.head;
        Stepped {
            answer: turned.answer,
            state: self,
        }
    }
}
