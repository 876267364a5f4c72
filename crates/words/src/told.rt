//! A refusal with its place, told in the names of the jobs.
use crate::number;
use joblist::Place;
use jobtext::{Names, put_edge};
use merge::BuildPlace;
use page::Page;
use refusal::Refusal;
use verdict::{Fault, Objection, Spot};

/// A place: one of the check's; the builder's slot and job; or what the check has against the pair that was built.
#[derive(Clone, Copy)]
pub enum At {
    Spot(Spot),
    Job(usize, usize),
    Checked(Objection),
}

impl From<Place> for At {
    fn from(p: Place) -> Self {
        At::Spot(Spot::InList(p))
    }
}

impl From<Spot> for At {
    fn from(s: Spot) -> Self {
        At::Spot(s)
    }
}

impl From<BuildPlace> for At {
    fn from(p: BuildPlace) -> Self {
        match p {
            BuildPlace::InList(q) => At::from(q),
            BuildPlace::AtJob(t, j) => At::Job(t, j),
            BuildPlace::AtSlot(t) => At::Spot(Spot::AtSlot(t)),
            BuildPlace::Answer(Ok(())) => At::from(Place::Nowhere),
            BuildPlace::Answer(Err(o)) => At::Checked(o),
        }
    }
}

/// A refusal: its number and its place.
#[derive(Clone, Copy)]
pub struct No {
    number: usize,
    at: At,
}

impl No {
    /// Why something is refused, as it is told.
    pub fn of<W: Refusal>(why: W) -> Self
    where
        At: From<W::Place>,
    {
        No {
            number: why.number(),
            at: At::from(why.place()),
        }
    }
}

/// What a line under an answer is about.
pub fn label(page: Page, s: &[u8]) -> Page {
    page.blank(4).left(s, 12)
}

fn put_slot(page: Page, t: usize) -> Page {
    label(page, b"slot").number(t).end()
}

// A fault has its switch as a number: `Fault::NO_SWITCH` is a form that document 01 names (DECISIONS, 'Forms').
fn put_switch(page: Page, x: usize) -> Page {
    if x == Fault::NO_SWITCH {
        return label(page, b"switch").line(b"none: table LO, with ordinary budgets");
    }
    label(page, b"switch slot").number(x).end()
}

// The list that a refusal is about, and the names of its jobs.
#[derive(Clone, Copy)]
struct Jobs<'a> {
    list: &'a [u8],
    names: &'a Names,
}

impl Jobs<'_> {
    fn put_job(&self, page: Page, what: &[u8], j: usize) -> Page {
        self.names.put(label(page, what), j).end()
    }

    fn put_edge(&self, page: Page, e: usize) -> Page {
        put_edge(label(page, b"edge"), self.list, self.names, e).end()
    }

    fn put_job_in_slot(&self, page: Page, t: usize, j: usize) -> Page {
        put_slot(self.put_job(page, b"job", j), t)
    }

    fn put_fault(&self, page: Page, f: Fault) -> Page {
        match f {
            Fault::Late(t, j, x) | Fault::Early(t, j, x) => {
                put_switch(self.put_job_in_slot(page, t, j), x)
            }
            Fault::Before(t, j, p, x) => {
                let at = self.put_job_in_slot(page, t, j);
                put_switch(self.put_job(at, b"waits for", p), x)
            }
        }
    }

    fn put_spot(&self, page: Page, s: Spot) -> Page {
        match s {
            Spot::InList(Place::Nowhere) => page,
            Spot::InList(Place::AtJob(j)) => self.put_job(page, b"job", j),
            Spot::InList(Place::AtEdge(e)) => self.put_edge(page, e),
            Spot::AtSlot(t) => put_slot(page, t),
            Spot::AtFault(f) => self.put_fault(page, f),
        }
    }

    // The check's number, where it stands behind the builder's 24, and its place.
    fn put_checked(&self, page: Page, o: Objection) -> Page {
        let n = o.number();
        let to = label(page, b"the check").number(n).put(b": ");
        self.put_spot(number::meaning(to, n).end(), o.place())
    }

    fn put_place(&self, page: Page, at: At) -> Page {
        match at {
            At::Spot(s) => self.put_spot(page, s),
            At::Job(t, j) => self.put_job_in_slot(page, t, j),
            At::Checked(o) => self.put_checked(page, o),
        }
    }
}

// The number and what it means.
fn put_number(page: Page, number: usize) -> Page {
    let to = page.put(b"no: refusal ").number(number).put(b": ");
    number::meaning(to, number).end()
}

/// A refusal, on a few lines; the first begins with `no`.
pub fn tell(page: Page, list: &[u8], names: &Names, no: No) -> Page {
    let placed = Jobs { list, names }.put_place(put_number(page, no.number), no.at);
    number::advice(label(placed, b"do"), no.number).end()
}
