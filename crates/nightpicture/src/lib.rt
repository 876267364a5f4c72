//! The night on which a plan goes wrong, as an SVG picture: the slots that ran are full, and those that did not are hollow.
#![tactic(auto)]

use drawing::plan::{Plan, Table};
use nights::night::{Night, Slot};
use nights::{At, budgets, witness_of};
use page::{Page, after, less, plus};
use picture::shapes::{head, key, label, text_at, text_end, upright};
use picture::sheet::{Grid, MARGIN, Sheet};
use refusal::Refusal;
use verdict::Fault;

// How a slot looks that did not run, and the fault.
const STYLE: &[u8] =
    b"<style>.hollow{fill:#fff;stroke:#7b8794;stroke-width:1.5;stroke-dasharray:3 2}
.fault{stroke:#e03131;stroke-width:5}.wrong{fill:#e03131}</style>
";

// The room for a job's need to the right of its row, and for the fault in words under the rows.
const NEED: usize = 230;

const UNDER: usize = 28;

// What a job needs, beside its row.
fn put_need(page: Page, grid: Grid, night: &Night, j: usize) -> Page {
    let x = plus(grid.sheet.end(), 12);
    let y = plus(grid.y_of(j), 17);
    let to = text_at(page, b"small", x, y).put(b"needs ");
    let needed = to.number(night.work(j).need);
    text_end(budgets(needed, night.plan.list(), j))
}

// A row: the name, the window and the need.
fn put_row(page: Page, grid: Grid, night: &Night, j: usize) -> Page {
    put_need(grid.put_row(page, j), grid, night, j)
}

fn put_rows(page: Page, grid: Grid, night: &Night) -> Page {
    let jobs = night.plan.jobs();
    jobs.fold(page, |to, j| put_row(to, grid, night, j))
}

// What slot t did: hollow where its job did not run.
fn put_slot(page: Page, grid: Grid, slot: Slot, t: usize) -> Page {
    match slot {
        Slot::Idle => page,
        Slot::Runs(j) => grid.put_filled(page, j, t),
        Slot::Ended(j) | Slot::Soon(j) | Slot::Past(j) | Slot::Waits(j, _) => {
            grid.put_slot(page, b"hollow", j, t)
        }
    }
}

// The slots up to the fault. A `for`: a `fold` over the page and the night is no plainer.
fn put_slots(page: Page, grid: Grid, opened: Night, end: usize) -> Page {
    let mut to = page;
    let mut night = opened;
    for t in 0..end {
        let slot = night.slot(t);
        to = put_slot(to, grid, slot, t);
        night = night.next(slot);
    }
    to
}

// The switch: a line at the end of its slot.
fn put_switch(page: Page, grid: Grid, switch: Option<usize>) -> Page {
    let Some(t) = switch else {
        return page;
    };
    let at = grid.sheet.x_of(after(t));
    upright(page, b"switch", at, less(grid.top, 4), grid.bottom())
}

// The fault: a mark at the opening of its slot, and its number in words under the rows.
fn put_fault(page: Page, grid: Grid, f: Fault) -> Page {
    let At { slot, job, .. } = At::from(f);
    let y = grid.y_of(job);
    let x = grid.sheet.x_of(slot);
    let marked = upright(page, b"fault", x, y, plus(y, 24));
    let under = plus(grid.bottom(), 20);
    let to = text_at(marked, b"wrong", 20, under).put(b"slot ");
    let placed = to.number(slot).put(b": ");
    text_end(words::meaning(placed, f.number()))
}

fn put_legend(page: Page) -> Page {
    let high = key(page, b"high", 20, b"high job");
    let low = key(high, b"low", 124, b"low job");
    let hollow = key(low, b"hollow", 222, b"named, and did not run");
    let switch = upright(hollow, b"switch", 434, 44, 62);
    let switched = label(switch, b"key", 444, 58, b"from LO to HI");
    let fault = upright(switched, b"fault", 572, 44, 62);
    label(fault, b"key", 582, 58, b"goes wrong")
}

fn put_heading(page: Page) -> Page {
    let title = b"A night on which it goes wrong";
    put_legend(label(page.put(STYLE), b"head", 20, 30, title))
}

fn put_bad(page: Page, night: Night, f: Fault) -> Page {
    let sheet = Sheet::new(night.plan);
    let grid = sheet.grid(Table::Low);
    let At { slot, switch, .. } = At::from(f);
    let width = plus(sheet.end(), NEED).max(680);
    let height = plus(grid.bottom(), UNDER + MARGIN);
    let ruled = grid.put_numbers(put_heading(head(page, width, height)));
    let rows = put_rows(ruled, grid, &night);
    let ran = put_slots(rows, grid, night, slot);
    put_fault(put_switch(ran, grid, switch), grid, f).line(b"</svg>")
}

/// The night behind the fault of a plan; nothing where the check names none.
pub fn put_picture(page: Page, plan: Plan) -> Page {
    match witness_of(plan) {
        Some((night, f)) => put_bad(page, night, f),
        None => page,
    }
}
