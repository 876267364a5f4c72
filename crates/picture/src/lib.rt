//! A plan's two tables as an SVG picture.
#![tactic(auto)]

use drawing::plan::{Plan, Table};
use drawing::put_counts;
use page::{Page, after, less, plus};
use shapes::{head, key, label, text_at, text_end, upright};
use sheet::{Grid, MARGIN, Sheet};

pub mod shapes;
pub mod sheet;

// A row: the name, the window and the slots that the job has.
fn put_row(page: Page, grid: Grid, j: usize) -> Page {
    let slots = grid.sheet.plan.slots().filter(|t| grid.has(j, *t));
    slots.fold(grid.put_row(page, j), |to, t| grid.put_filled(to, j, t))
}

fn put_table(page: Page, grid: Grid, title: &[u8]) -> Page {
    let titled = label(page, b"title", 20, less(grid.top, 10), title);
    let ruled = grid.put_numbers(titled);
    let jobs = grid.sheet.plan.jobs();
    jobs.fold(ruled, |to, j| put_row(to, grid, j))
}

// A switch: a line from its slot's end in table LO down through table HI.
fn put_switch(page: Page, sheet: Sheet, t: usize) -> Page {
    let from = less(sheet.grid(Table::Low).top, 4);
    let to = sheet.grid(Table::High).bottom();
    upright(page, b"switch", sheet.x_of(after(t)), from, to)
}

// The first two keys are also those of a night: a function for two calls is no plainer than the calls.
fn put_legend(page: Page) -> Page {
    let high = key(page, b"high", 20, b"high job");
    let low = key(high, b"low", 124, b"low job");
    let window = key(low, b"window", 222, b"arrival to deadline");
    let line = upright(window, b"switch", 410, 44, 62);
    label(line, b"key", 420, 58, b"from LO to HI")
}

// The counts, and what the colours say.
fn put_heading(page: Page, list: &[u8]) -> Page {
    let counted = put_counts(text_at(page, b"head", 20, 30), list);
    put_legend(text_end(counted))
}

/// The whole picture.
pub fn put_picture(page: Page, plan: Plan) -> Page {
    let sheet = Sheet::new(plan);
    let low = sheet.grid(Table::Low);
    let high = sheet.grid(Table::High);
    let width = plus(sheet.end(), MARGIN).max(540);
    let opened = head(page, width, plus(high.bottom(), MARGIN));
    let headed = put_heading(opened, plan.list());
    let tables = put_table(put_table(headed, low, b"table LO"), high, b"table HI");
    let switches = plan.slots().filter(|t| plan.switches(*t));
    switches
        .fold(tables, |to, t| put_switch(to, sheet, t))
        .line(b"</svg>")
}
