//! The two tables in the columns of a terminal: a row a job, from its arrival to its deadline.
use crate::plan::{Plan, Table};
use jobtext::list;
use page::{Page, after, less, lower, plus};

// A frame of so many slots has wide cells and one block.
const WIDE: usize = 16;

// The slots of a block.
const FOLD: usize = 32;

// The columns of a job's label, and of the name in it.
const LABEL: usize = 15;

const NAME: usize = 11;

// What is drawn: a table's slots from one to another, whether their cells are wide, and whether in colour.
#[derive(Clone, Copy)]
struct View<'a> {
    plan: Plan<'a>,
    table: Table,
    from: usize,
    to: usize,
    is_wide: bool,
    in_colour: bool,
}

// What an edge or an inside is drawn with.
#[derive(Clone, Copy, PartialEq, Eq)]
enum Mark {
    Opens,
    Closes,
    Full,
    Line,
    Blank,
}

impl Mark {
    // Puts it k times.
    fn put(self, page: Page, k: usize) -> Page {
        match self {
            Mark::Opens => page.fill("├".as_bytes(), k),
            Mark::Closes => page.fill("┤".as_bytes(), k),
            Mark::Full => page.fill("█".as_bytes(), k),
            Mark::Line => page.fill("─".as_bytes(), k),
            Mark::Blank => page.blank(k),
        }
    }
}

impl View<'_> {
    // The columns of a slot's inside; one more is the edge before it.
    fn inside(self) -> usize {
        if self.is_wide { 3 } else { 1 }
    }

    // Whether a job has something to show in the view.
    fn shows(self, j: usize) -> bool {
        let list = self.plan.list();
        let is_named = self.plan.entries(self.table, j, self.from)
            != self.plan.entries(self.table, j, self.to);
        is_named || list::arrival(list, j) < self.to && self.from < list::deadline(list, j)
    }

    // The number over slot t, where it has one.
    fn put_number(self, page: Page, t: usize) -> Page {
        if self.is_wide {
            page.number_left(t, 4)
        } else if t % 4 == 0 {
            page.number_left(t, 8)
        } else {
            page
        }
    }

    // The line under the number of slot t.
    fn put_tick(self, page: Page, t: usize) -> Page {
        if self.is_wide {
            page.put("┬───".as_bytes())
        } else if t % 4 == 0 {
            page.put("┬─".as_bytes())
        } else {
            page.put("──".as_bytes())
        }
    }

    fn put_title(self, page: Page) -> Page {
        match self.table {
            Table::Low => page.left(b" table LO", LABEL),
            Table::High => page.left(b" table HI", LABEL),
        }
    }

    // The table's name, and the ruler of slots.
    fn put_ruler(self, page: Page) -> Page {
        let slots = self.from..self.to;
        let numbered = slots.fold(self.put_title(page), |to, t| self.put_number(to, t));
        let under = numbered.end().blank(LABEL);
        let ticked = (self.from..self.to).fold(under, |to, t| self.put_tick(to, t));
        ticked.line("┬".as_bytes())
    }

    // A name in a fixed number of columns, and a blank.
    fn put_name(self, page: Page, j: usize) -> Page {
        let names = self.plan.names;
        let size = names.width(j);
        if size <= NAME {
            return names.put(page, j).blank(NAME - size + 1);
        }
        names.put_start(page, j, NAME - 1).put(b"~ ")
    }

    fn put_level(self, page: Page, j: usize) -> Page {
        if list::is_high(self.plan.list(), j) {
            return page.put(b"H ");
        }
        page.put(b"L ")
    }

    // Whether a job has a slot. As a `Grid` of a picture has it: a call with the table named would be as long as this line.
    fn has(self, j: usize, t: usize) -> bool {
        self.plan.entry(self.table, t) == j
    }

    // Whether a job has both slots beside the edge before slot t.
    fn is_run(self, j: usize, t: usize) -> bool {
        t != 0 && self.has(j, t - 1) && self.has(j, t)
    }

    // What stands at the edge between slots t - 1 and t.
    fn edge(self, j: usize, t: usize) -> Mark {
        let list = self.plan.list();
        if t == list::arrival(list, j) {
            Mark::Opens
        } else if t == list::deadline(list, j) {
            Mark::Closes
        } else if self.is_run(j, t) {
            Mark::Full
        } else if self.plan.is_open(j, t) {
            Mark::Line
        } else {
            Mark::Blank
        }
    }

    // Whether slot t shows a switch: in table LO alone.
    fn marks(self, t: usize) -> bool {
        self.table == Table::Low && self.plan.switches(t)
    }

    // The inside of a slot that shows a switch.
    fn put_switching(self, page: Page) -> Page {
        page.fill("█".as_bytes(), less(self.inside(), 1))
            .put("▶".as_bytes())
    }

    // What fills slot t.
    fn filling(self, j: usize, t: usize) -> Mark {
        if self.has(j, t) {
            Mark::Full
        } else if self.plan.is_open(j, t) {
            Mark::Line
        } else {
            Mark::Blank
        }
    }

    // The edge and the inside; where they are alike, in one piece: a page is a thousand bytes, and each piece hands it on.
    fn put_slot(self, page: Page, j: usize, t: usize) -> Page {
        let edge = self.edge(j, t);
        let filling = self.filling(j, t);
        if filling == Mark::Full && self.marks(t) {
            return self.put_switching(edge.put(page, 1));
        }
        if edge == filling {
            return edge.put(page, after(self.inside()));
        }
        filling.put(edge.put(page, 1), self.inside())
    }

    // The last edge of a row: the deadline, or the window goes on.
    fn put_last(self, page: Page, j: usize) -> Page {
        let list = self.plan.list();
        if self.to == list::deadline(list, j) {
            page.put("┤".as_bytes())
        } else if self.plan.is_open(j, self.to) {
            page.put("─".as_bytes())
        } else {
            page
        }
    }

    fn put_window(self, page: Page, j: usize) -> Page {
        // A `for`: a `fold` hands the page on more often, at each slot of each row.
        let mut window = page;
        for t in self.from..self.to {
            window = self.put_slot(window, j, t);
        }
        self.put_last(window, j)
    }

    // The window in the colour of the job's level.
    fn put_painted(self, page: Page, j: usize) -> Page {
        let colour = if list::is_high(self.plan.list(), j) {
            page.put(b"\x1b[33m")
        } else {
            page.put(b"\x1b[36m")
        };
        self.put_window(colour, j).trimmed().put(b"\x1b[0m")
    }

    // A row of a table: the name and the level, then the window and what is in it.
    fn put_row(self, page: Page, j: usize) -> Page {
        let label = self.put_level(self.put_name(page.blank(1), j), j);
        let row = if self.in_colour {
            self.put_painted(label, j)
        } else {
            self.put_window(label, j)
        };
        row.end()
    }

    fn put_table(self, page: Page) -> Page {
        let rows = self.plan.jobs().filter(|j| self.shows(*j));
        rows.fold(self.put_ruler(page), |to, j| self.put_row(to, j))
            .end()
    }
}

// Some slots of both tables, LO above HI.
fn put_block(page: Page, plan: Plan, from: usize, in_colour: bool) -> Page {
    let slots = list::slots(plan.list());
    let low = View {
        plan,
        table: Table::Low,
        from,
        to: lower(slots, plus(from, FOLD)),
        is_wide: slots <= WIDE,
        in_colour,
    };
    let high = View {
        table: Table::High,
        ..low
    };
    high.put_table(low.put_table(page))
}

// One switch slot.
fn put_switch(page: Page, plan: Plan, t: usize) -> Page {
    let at = page
        .put(" ▶ switch slot ".as_bytes())
        .number(t)
        .put(b": if ");
    let named = plan.names.put(at, plan.entry(Table::Low, t));
    named.line(b" has not ended after it, the rest of the frame is table HI's")
}

/// The counts of a list.
pub fn put_counts(page: Page, list: &[u8]) -> Page {
    let jobs = page.count(list::jobs(list), b"job").put(b", ");
    let edges = jobs.count(list::edges(list), b"edge").put(b", ");
    edges.count(list::slots(list), b"slot")
}

/// The counts and the whole of both tables.
pub fn put_tables(page: Page, plan: Plan, in_colour: bool) -> Page {
    let counted = put_counts(page.blank(1), plan.list()).end().end();
    let blocks = plan.slots().step_by(FOLD);
    let drawn = blocks.fold(counted, |to, from| put_block(to, plan, from, in_colour));
    let switches = plan.slots().filter(|t| plan.switches(*t));
    switches.fold(drawn, |to, t| put_switch(to, plan, t))
}
