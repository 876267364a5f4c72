//! One execution, slot by slot, as document 01 has it: what each job needs and has had, and the table in force.
use drawing::plan::{Plan, Table};
use joblist::MOST_JOBS;
use jobtext::list;
use page::after;

/// The units that a job needs, and those that it has had.
#[derive(Clone, Copy, Default)]
pub struct Work {
    pub need: usize,
    pub had: usize,
}

impl Work {
    fn has_ended(self) -> bool {
        self.need <= self.had
    }
}

/// What stands at the opening of a slot: the work of each job of the plan, and the table in force. The work is an array and no
/// `Vec`: there are never more jobs, and so no memory can run out in the middle of a night.
#[derive(Clone, Copy)]
pub struct Night<'a> {
    pub plan: Plan<'a>,
    pub table: Table,
    work: [Work; MOST_JOBS],
}

/// What a slot does: none is named; the job runs; it has ended; or in HI, of a low job: it has not arrived, its deadline is
/// past, or it waits for another.
#[derive(Clone, Copy)]
pub enum Slot {
    Idle,
    Runs(usize),
    Ended(usize),
    Soon(usize),
    Past(usize),
    Waits(usize, usize),
}

impl<'a> Night<'a> {
    /// The frame opens in LO.
    pub fn opened(plan: Plan<'a>, needs: [u16; MOST_JOBS]) -> Self {
        Night {
            plan,
            table: Table::Low,
            work: needs.map(|n| Work {
                need: usize::from(n),
                had: 0,
            }),
        }
    }

    /// The work of job j; none where there is no such job.
    pub fn work(&self, j: usize) -> Work {
        self.work.get(j).copied().unwrap_or_default()
    }

    // The lowest job that job j waits for.
    fn waits_for(&self, j: usize) -> Option<usize> {
        let list = self.plan.list();
        (0..list::edges(list))
            .filter(|e| list::edge_to(list, *e) == j)
            .map(|e| list::edge_from(list, e))
            .find(|p| !self.work(*p).has_ended())
    }

    // In HI a low job runs only if arrived, before its deadline and with its predecessors finished.
    fn low_at(&self, j: usize, t: usize) -> Slot {
        let list = self.plan.list();
        if t < list::arrival(list, j) {
            return Slot::Soon(j);
        }
        if list::deadline(list, j) <= t {
            return Slot::Past(j);
        }
        match self.waits_for(j) {
            Some(p) => Slot::Waits(j, p),
            None => Slot::Runs(j),
        }
    }

    /// What slot t does.
    pub fn slot(&self, t: usize) -> Slot {
        let list = self.plan.list();
        let j = self.plan.entry(self.table, t);
        if list::jobs(list) <= j {
            Slot::Idle
        } else if self.work(j).has_ended() {
            Slot::Ended(j)
        } else if self.table == Table::Low || list::is_high(list, j) {
            Slot::Runs(j)
        } else {
            self.low_at(j, t)
        }
    }

    // One unit more of job j: a high job that has had CLO and is unfinished switches.
    fn ran(mut self, j: usize) -> Self {
        let list = self.plan.list();
        let Work { need, had } = self.work(j);
        let had = after(had);
        if let Some(work) = self.work.get_mut(j) {
            work.had = had;
        }
        if list::is_high(list, j) && list::ordinary(list, j) <= had && had < need {
            self.table = Table::High;
        }
        self
    }

    /// What stands after a slot.
    pub fn next(self, slot: Slot) -> Self {
        match slot {
            Slot::Runs(j) => self.ran(j),
            _ => self,
        }
    }
}
