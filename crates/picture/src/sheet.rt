//! A sheet of slots and jobs: where each slot and row begins, its numbers, and the windows of the jobs.
use crate::shapes::{Rectangle, bracket, name, text_at, text_end, upright};
use drawing::plan::{Plan, Table};
use jobtext::list;
use page::{Page, after, less, plus};

// Where slot 0 begins at least, and where the first row of table LO begins.
const LEFT: usize = 150;

const TOP: usize = 112;

// The room for a letter of a name, and what is left free beside a name, and under and to the right of the tables.
const LETTER: usize = 8;

pub const MARGIN: usize = 24;

// The height of a row, of what is filled in it, and of what stands between the tables.
const ROW: usize = 26;

const FILLED: usize = 18;

const BETWEEN: usize = 64;

// How wide slots are drawn: the more there are, the narrower.
#[derive(Clone, Copy)]
enum Scale {
    Wide,
    Middle,
    Narrow,
}

impl Scale {
    fn of(slots: usize) -> Self {
        match slots {
            0..=16 => Scale::Wide,
            17..=40 => Scale::Middle,
            _ => Scale::Narrow,
        }
    }

    // The width of a slot.
    fn width(self) -> usize {
        match self {
            Scale::Wide => 48,
            Scale::Middle => 24,
            Scale::Narrow => 8,
        }
    }

    // Whether slot t has its number over it.
    fn is_numbered(self, t: usize) -> bool {
        match self {
            Scale::Wide => true,
            Scale::Middle => t % 2 == 0,
            Scale::Narrow => t % 8 == 0,
        }
    }
}

// The height of so many rows.
fn height(rows: usize) -> usize {
    rows.saturating_mul(ROW)
}

/// The measures of a picture: where slot 0 begins, and how wide slots are.
#[derive(Clone, Copy)]
pub struct Sheet<'a> {
    pub plan: Plan<'a>,
    left: usize,
    scale: Scale,
}

// The room to the left of slot 0: for the longest name.
fn margin(plan: Plan) -> usize {
    plan.jobs().fold(LEFT, |most, j| {
        let letters = plan.names.width(j).saturating_mul(LETTER);
        most.max(plus(letters, MARGIN))
    })
}

impl<'a> Sheet<'a> {
    /// The measures for a plan.
    pub fn new(plan: Plan<'a>) -> Self {
        Sheet {
            plan,
            left: margin(plan),
            scale: Scale::of(list::slots(plan.list())),
        }
    }

    /// Where slot t begins.
    pub fn x_of(self, t: usize) -> usize {
        self.left
            .saturating_add(t.saturating_mul(self.scale.width()))
    }

    /// Where the last slot ends.
    pub fn end(self) -> usize {
        self.x_of(list::slots(self.plan.list()))
    }

    /// One of its tables: LO, or HI under it.
    pub fn grid(self, table: Table) -> Grid<'a> {
        let under = height(list::jobs(self.plan.list()));
        Grid {
            sheet: self,
            table,
            top: match table {
                Table::Low => TOP,
                Table::High => plus(under, TOP + BETWEEN),
            },
        }
    }
}

/// A table of a sheet, and where its first row begins.
#[derive(Clone, Copy)]
pub struct Grid<'a> {
    pub sheet: Sheet<'a>,
    table: Table,
    pub top: usize,
}

impl Grid<'_> {
    /// Where row k begins.
    pub fn y_of(self, k: usize) -> usize {
        plus(self.top, height(k))
    }

    /// Where the last row ends.
    pub fn bottom(self) -> usize {
        self.y_of(list::jobs(self.sheet.plan.list()))
    }

    /// Whether a job has a slot.
    pub fn has(self, j: usize, t: usize) -> bool {
        // As a `View` of the terminal has it: a call with the table named would be as long as this line.
        self.sheet.plan.entry(self.table, t) == j
    }

    // The number over slot t, with a fine line down the table.
    fn put_number(self, page: Page, t: usize) -> Page {
        let x = self.sheet.x_of(t);
        let line = upright(page, b"grid", x, less(self.top, 8), self.bottom());
        let y = less(self.top, 10);
        text_end(text_at(line, b"small", plus(x, 3), y).number(t))
    }

    /// The numbers over the slots.
    pub fn put_numbers(self, page: Page) -> Page {
        let numbered = self
            .sheet
            .plan
            .slots()
            .filter(|t| self.sheet.scale.is_numbered(*t));
        numbered.fold(page, |to, t| self.put_number(to, t))
    }

    // A job's window, from its arrival to its deadline.
    fn put_window(self, page: Page, j: usize) -> Page {
        let list = self.sheet.plan.list();
        let y = self.y_of(j);
        let from = self.sheet.x_of(list::arrival(list, j));
        let to = self.sheet.x_of(list::deadline(list, j));
        let inside = Rectangle {
            x: from,
            y: plus(y, 3),
            width: less(to, from),
            height: FILLED,
        };
        let opened = bracket(inside.put(page, b"window"), plus(from, 5), y, b"h-5", b"h5");
        bracket(opened, less(to, 5), y, b"h5", b"h-5")
    }

    /// The name of a job before its window.
    pub fn put_row(self, page: Page, j: usize) -> Page {
        let x = less(self.sheet.left, 12);
        let label = text_at(page, b"name", x, plus(self.y_of(j), 17));
        self.put_window(text_end(name(label, self.sheet.plan.names, j)), j)
    }

    /// A slot of a job's row.
    pub fn put_slot(self, page: Page, class: &[u8], j: usize, t: usize) -> Page {
        let slot = Rectangle {
            x: after(self.sheet.x_of(t)),
            y: plus(self.y_of(j), 3),
            width: less(self.sheet.scale.width(), 2),
            height: FILLED,
        };
        slot.put(page, class)
    }

    /// A slot in the colour of the job's level.
    pub fn put_filled(self, page: Page, j: usize, t: usize) -> Page {
        let class: &[u8] = if list::is_high(self.sheet.plan.list(), j) {
            b"high"
        } else {
            b"low"
        };
        self.put_slot(page, class, j, t)
    }
}
