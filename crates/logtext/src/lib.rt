//! What is said of a log, on a page.
#![tactic(auto)]

use jobtext::{Names, list};
use logwalk::{FindWhy, STORE_MOST, Span};
use page::{Page, less, plus};
use planfile::list_of;
use planlog::AppendWhy;
use std::iter::successors;
use words::{No, label};

/// The place behind a plan.
pub fn end_of(span: Span) -> usize {
    plus(span.start, span.size)
}

/// The bytes of a plan in its store.
pub fn plan_at(store: &[u8], span: Span) -> &[u8] {
    store.get(span.start..end_of(span)).unwrap_or(b"")
}

/// Why no plan was found.
pub fn put_not_found(page: Page, w: FindWhy) -> Page {
    words::tell(page, b"", &Names::none(), No::of(w))
}

/// Why a plan was not appended.
pub fn put_refused(page: Page, plan: &[u8], w: AppendWhy) -> Page {
    words::tell(page, list_of(plan), &Names::none(), No::of(w))
}

/// A store that was made.
pub fn put_made(page: Page, path: &[u8], size: usize) -> Page {
    let named = page.put(b"yes: ").put(path).put(b", ").count(size, b"byte");
    named.line(b": a store with no plan")
}

/// A plan of the store, and where it begins there.
pub fn put_found(page: Page, path: &[u8], plan: &[u8], at: usize) -> Page {
    label(plans::put_yes(page, path, plan), b"place")
        .number(at)
        .end()
}

/// A plan that was appended, and what is left behind it.
pub fn put_appended(page: Page, path: &[u8], plan: &[u8], at: usize, size: usize) -> Page {
    let left = less(size, plus(at, plan.len()));
    label(put_found(page, path, plan, at), b"left")
        .count(left, b"byte")
        .end()
}

/// An append whose writes did not all come to the disk.
pub fn put_cut(page: Page, path: &[u8]) -> Page {
    let to = page
        .put(path)
        .put(b": the append did not come to its end: desk log ")
        .put(path);
    to.line(b" list says which plans are there")
}

/// A plan that would go over its own store.
pub fn put_own(page: Page, path: &[u8]) -> Page {
    page.put(path).line(b" is the store itself, or a copy of it, and holds more than this plan")
}

fn put_row(page: Page, store: &[u8], span: Span) -> Page {
    let jobs = list_of(plan_at(store, span));
    page.number_right(span.start, 5)
        .number_right(span.size, 7)
        .number_right(list::jobs(jobs), 7)
        .number_right(list::slots(jobs), 7)
        .end()
}

// A line for each plan, from the one that ends at a place back to the first. No store has more plans than bytes.
fn put_rows(page: Page, store: &[u8], newest: usize) -> Page {
    successors(logwalk::previous(store, newest).ok(), |span| {
        logwalk::previous(store, span.start).ok()
    })
    .take(STORE_MOST)
    .fold(page, |page, span| put_row(page, store, span))
}

// How much of a store its plans take, up to `end`.
fn put_total(page: Page, path: &[u8], size: usize, end: usize) -> Page {
    let sized = page.put(path).put(b", ").count(size, b"byte").put(b": ");
    let held = sized.number(end).put(b" hold plans, ");
    held.number(less(size, end)).line(b" left")
}

/// Every plan of a store, newest first, and how much of it they take; `end` is the newest plan's.
pub fn put_list(page: Page, path: &[u8], store: &[u8], end: usize) -> Page {
    let rows = put_rows(page.line(b"place   size   jobs  slots"), store, end);
    put_total(rows, path, store.len(), end)
}
