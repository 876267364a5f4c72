//! A night in words: what each job needs, what each slot does, and last what is wrong.
use crate::night::{Night, Slot};
use drawing::plan::{Plan, Table};
use jobtext::list;
use page::{Page, less, plus};
use verdict::Fault;

/// Where a fault is: its slot, its job and its switch slot, where it has one.
#[derive(Clone, Copy)]
pub struct At {
    pub slot: usize,
    pub job: usize,
    pub switch: Option<usize>,
}

impl From<Fault> for At {
    fn from(f: Fault) -> Self {
        match f {
            Fault::Late(slot, job, switch)
            | Fault::Early(slot, job, switch)
            | Fault::Before(slot, job, _, switch) => At {
                slot,
                job,
                switch: (switch != Fault::NO_SWITCH).then_some(switch),
            },
        }
    }
}

/// The budgets of a job; a low one has no second.
pub fn budgets(page: Page, list: &[u8], j: usize) -> Page {
    let first = page.put(b" (CLO ").number(list::ordinary(list, j));
    if !list::is_high(list, j) {
        return first.put(b")");
    }
    first.put(b", CHI ").number(list::high(list, j)).put(b")")
}

// The units that a job has had, of those that it needs.
fn put_units(page: Page, night: &Night, j: usize) -> Page {
    let work = night.work(j);
    page.number(work.had).put(b" of ").number(work.need)
}

// A slot and the table in force.
fn put_place(page: Page, table: Table, t: usize) -> Page {
    let to = page.put(b"slot ").number_right(t, 4);
    match table {
        Table::Low => to.put(b"  LO  "),
        Table::High => to.put(b"  HI  "),
    }
}

// A plan, and the columns of its longest name and two more.
#[derive(Clone, Copy)]
struct Columns<'a> {
    plan: Plan<'a>,
    wide: usize,
}

impl<'a> Columns<'a> {
    fn new(plan: Plan<'a>) -> Self {
        let widths = plan.jobs().map(|j| plan.names.width(j));
        Columns {
            plan,
            wide: plus(widths.max().unwrap_or(0), 2),
        }
    }

    // A job's name in its columns.
    fn put_name(self, page: Page, j: usize) -> Page {
        let names = self.plan.names;
        let rest = less(self.wide, names.width(j));
        names.put(page, j).blank(rest)
    }

    fn put_need(self, page: Page, night: &Night, j: usize) -> Page {
        let named = self.put_name(page.blank(4), j);
        let counted = named.count(night.work(j).need, b"slot");
        budgets(counted, self.plan.list(), j).end()
    }

    fn put_needs(self, page: Page, night: &Night) -> Page {
        let jobs = self.plan.jobs();
        jobs.fold(page, |to, j| self.put_need(to, night, j)).end()
    }

    // A unit of job j, with the switch where it comes.
    fn put_unit(self, page: Page, before: &Night, after: &Night, j: usize) -> Page {
        let to = put_units(self.put_name(page, j), after, j);
        if before.table == after.table {
            return to;
        }
        to.put(b", and CLO is used up: table HI from the next slot on")
    }

    // What a slot does.
    fn put_deed(self, page: Page, slot: Slot, before: &Night, after: &Night) -> Page {
        match slot {
            Slot::Idle => page.put(b"idle"),
            Slot::Runs(j) => self.put_unit(page, before, after, j),
            Slot::Ended(j) => self.put_name(page, j).put(b"has ended"),
            Slot::Soon(j) => self.put_name(page, j).put(b"has not arrived"),
            Slot::Past(j) => self.put_name(page, j).put(b"is past its deadline"),
            Slot::Waits(j, p) => {
                let to = self.put_name(page, j).put(b"waits for ");
                self.plan.names.put(to, p)
            }
        }
    }

    // What is wrong at a fault.
    fn put_wrong(self, page: Page, night: &Night, f: Fault) -> Page {
        match f {
            Fault::Late(_, j, _) => {
                let to = self.put_name(page, j);
                put_units(to.put(b"wrong: at its deadline it has had "), night, j)
            }
            Fault::Early(_, j, _) => {
                let to = self.put_name(page, j);
                to.put(b"wrong: named before its arrival at slot ")
                    .number(list::arrival(self.plan.list(), j))
            }
            Fault::Before(_, j, p, _) => {
                let to = self.put_name(page, j).put(b"wrong: named before ");
                let named = self.plan.names.put(to, p);
                put_units(named.put(b" has ended, with "), night, p)
            }
        }
    }

    // The slots up to the fault, and what is wrong at its opening. A `for`: a `fold` over the page and the night is no plainer.
    fn put_slots(self, page: Page, opened: Night, f: Fault) -> Page {
        let mut to = page;
        let mut night = opened;
        let end = At::from(f).slot;
        for t in 0..end {
            let slot = night.slot(t);
            let next = night.next(slot);
            to = self
                .put_deed(put_place(to, night.table, t), slot, &night, &next)
                .end();
            night = next;
        }
        self.put_wrong(put_place(to, night.table, end), &night, f)
            .end()
    }
}

/// The whole night.
pub fn put_slots(page: Page, night: Night, f: Fault) -> Page {
    let columns = Columns::new(night.plan);
    let said = page
        .end()
        .line(b"A night on which it happens, where the jobs need:");
    columns.put_slots(columns.put_needs(said, &night), night, f)
}
