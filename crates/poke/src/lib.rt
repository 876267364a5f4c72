//! One field of the dispatcher's state: set to any value that it can hold.
#![tactic(auto)]

pub mod field;

ghost use Rattle.std.specs.Prelude.{◌<◌};

use dispatch::state::State;
use field::Field;
use joblist::{MOST_EDGES, MOST_JOBS, MOST_SLOTS};
use parts::plan;
use parts::plan::{ENDS, ENTRIES, JOBS};

// Number k of job i, if there is such a job. This and the next two know where `parts` keeps them.
fn set_number(jobs: &mut [u16; JOBS], i: usize, k: usize, word: u16)
    requires { k < 5 }
{
    if i < MOST_JOBS {
        jobs[plan::NUMBERS * i + k] = word;
    }
}

// End k of edge i, if there is such an edge.
fn set_end(ends: &mut [u8; ENDS], i: usize, k: usize, byte: u8)
    requires { k < 2 }
{
    if i < MOST_EDGES {
        ends[2 * i + k] = byte;
    }
}

// Slot i of table k, if there is such a slot.
fn set_slot(tables: &mut [u8; ENTRIES], i: usize, k: usize, byte: u8)
    requires { k < 2 }
{
    if i < MOST_SLOTS {
        tables[MOST_SLOTS * k + i] = byte;
    }
}

// Place i of a field, if there is such a place.
fn set<T: Copy>(field: &mut [T], i: usize, value: T) {
    if let Some(place) = field.get_mut(i) {
        *place = value;
    }
}

/// The state with v in place i of a field.
pub fn poked(mut state: State, field: Field, i: usize, v: usize) -> State {
    let word = (v % 65536) as u16;
    let byte = (v % 256) as u8;
    match field {
        Field::Slot => state.head.slot = word,
        Field::Tick => state.head.last = word,
        Field::Length => state.plan.counts.len = word,
        Field::Jobs => state.plan.counts.n = word,
        Field::Edges => state.plan.counts.m = word,
        Field::Ordered => state.head.ordered = byte,
        Field::High => state.head.high = byte,
        Field::Halted => state.head.halted = byte,
        Field::Units => set(&mut state.units, i, word),
        Field::Arrival => set_number(&mut state.plan.jobs, i, plan::ARRIVAL, word),
        Field::Deadline => set_number(&mut state.plan.jobs, i, plan::DEADLINE, word),
        Field::Clo => set_number(&mut state.plan.jobs, i, plan::CLO, word),
        Field::Chi => set_number(&mut state.plan.jobs, i, plan::CHI, word),
        Field::Level => set_number(&mut state.plan.jobs, i, plan::LEVEL, word),
        Field::Done => set(&mut state.done, i, byte),
        Field::Cut => set(&mut state.cut, i, byte),
        Field::From => set_end(&mut state.plan.edges, i, 0, byte),
        Field::To => set_end(&mut state.plan.edges, i, 1, byte),
        Field::Lo => set_slot(&mut state.plan.tables, i, 0, byte),
        Field::Hi => set_slot(&mut state.plan.tables, i, 1, byte),
    }
    state
}
