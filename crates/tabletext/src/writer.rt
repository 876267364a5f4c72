//! Two tables as text that can be read again.
use joblist::MOST_JOBS;
use jobtext::Names;
use page::{Page, after, digits, less, plus};

// Whose a run is. A job with the name `idle` goes by its number.
fn put_entry(page: Page, names: &Names, entry: u8) -> Page {
    let j = usize::from(entry);
    if MOST_JOBS <= j {
        return page.put(b"idle");
    }
    if names.job_of(b"idle") == Some(j) {
        return page.put(b"job ").number(j);
    }
    names.put(page, j)
}

// The slots of a run, in so many columns.
fn put_slots(page: Page, from: usize, last: usize, columns: usize) -> Page {
    if from == last {
        return page.number_left(from, columns);
    }
    let first = after(digits(from));
    page.number(from)
        .put(b"-")
        .number_left(last, less(columns, first))
}

// A line for each run of slots that have one entry.
fn put_table(page: Page, table: &[u8], names: &Names) -> Page {
    let most = digits(less(table.len(), 1));
    let columns = plus(most.saturating_mul(2), 3);
    // `chunk_by` gives no places, and a fold over the page and the slot, a pair, is no plainer.
    let mut to = page;
    let mut from = 0usize;
    for run in table.chunk_by(|x, y| x == y) {
        let end = plus(from, run.len());
        let slots = put_slots(to, from, less(end, 1), columns);
        let entry = run.first().copied().unwrap_or(0);
        to = put_entry(slots, names, entry).end();
        from = end;
    }
    to
}

/// Both tables.
pub fn put_pair(page: Page, lo: &[u8], hi: &[u8], names: &Names) -> Page {
    let low = put_table(page.line(b"LO"), lo, names);
    put_table(low.end().line(b"HI"), hi, names)
}
