//! The parts of an answer line: a number, and the places that it has.
#![tactic(auto)]

use joblist::Place;
use merge::BuildPlace;
use page::Page;
use refusal::{Refusal, answer_number, answer_place};
use verdict::{Fault, Spot};

/// A name and its bytes, `-` for none.
pub fn put_bytes(page: Page, name: &[u8], bytes: &[u8]) -> Page {
    if bytes.is_empty() {
        return page.put(name).put(b"-");
    }
    page.put(name).hex(bytes)
}

fn put_slot(page: Page, t: usize) -> Page {
    page.put(b" slot=").number(t)
}

fn put_job(page: Page, j: usize) -> Page {
    page.put(b" job=").number(j)
}

fn put_slot_job(page: Page, t: usize, j: usize) -> Page {
    put_job(put_slot(page, t), j)
}

fn put_switch(page: Page, x: usize) -> Page {
    page.put(b" switch=").number(x)
}

/// A place that an answer line shows behind the number. It is no `Display`: a page is handed on by value.
pub trait Shown {
    fn put_on(self, page: Page) -> Page;
}

impl Shown for Place {
    // The job or the edge of a refused list.
    fn put_on(self, page: Page) -> Page {
        match self {
            Place::Nowhere => page,
            Place::AtJob(j) => put_job(page, j),
            Place::AtEdge(e) => page.put(b" edge=").number(e),
        }
    }
}

impl Shown for Fault {
    // Slot, job and switch; a predecessor where the fault has one.
    fn put_on(self, page: Page) -> Page {
        match self {
            Fault::Late(t, j, x) | Fault::Early(t, j, x) => put_switch(put_slot_job(page, t, j), x),
            Fault::Before(t, j, p, x) => {
                let job = put_slot_job(page, t, j);
                put_switch(job.put(b" pred=").number(p), x)
            }
        }
    }
}

impl Shown for Spot {
    // The place of what the check, a plan or a write is refused for.
    fn put_on(self, page: Page) -> Page {
        match self {
            Spot::InList(place) => place.put_on(page),
            Spot::AtSlot(t) => put_slot(page, t),
            Spot::AtFault(fault) => fault.put_on(page),
        }
    }
}

impl Shown for BuildPlace {
    // The place of what a build is refused for.
    fn put_on(self, page: Page) -> Page {
        match self {
            BuildPlace::InList(place) => place.put_on(page),
            BuildPlace::AtJob(t, j) => put_slot_job(page, t, j),
            BuildPlace::AtSlot(t) => put_slot(page, t),
            BuildPlace::Answer(verdict) => put_answer(page.put(b" fault="), verdict),
        }
    }
}

/// An answer: its number, and the place of what is refused.
pub fn put_answer<T: Copy, W: Refusal>(page: Page, answer: Result<T, W>) -> Page
where
    W::Place: Shown,
{
    let next = page.number(answer_number(answer));
    answer_place(answer).put_on(next)
}

/// An answer, and more behind it where nothing is refused.
pub fn put_answer_with<T: Copy, W: Refusal, F: FnOnce(Page, T) -> Page>(
    page: Page,
    answer: Result<T, W>,
    more: F,
) -> Page
where
    W::Place: Shown,
    requires { F.IsAlwaysCallable more }
{
    let next = put_answer(page, answer);
    match answer {
        Ok(x) => more(next, x),
        Err(_) => next,
    }
}
