//! The answer to each request of the log, on a store that is lent.
#![tactic(auto)]

use logwalk::Span;
use page::{Page, plus};
use planlog::AppendWhy;
use replytext::{put_answer_with, put_bytes};
use requests::LogRequest;
use std::iter::successors;

/// How many bytes the store has for a request: those that it had, and for a new store those that are asked for.
pub fn size_for(request: LogRequest<'_>, size: usize) -> usize {
    match request {
        LogRequest::Store { size, .. } => size,
        _ => size,
    }
}

fn put_yes(page: Page) -> Page {
    page.put(b"0")
}

fn put_unreadable(page: Page) -> Page {
    page.put(b"?")
}

fn reply_store(page: Page, store: &mut [u8], byte: usize) -> Page {
    store.fill((byte % 256) as u8);
    put_yes(page)
}

fn reply_put(page: Page, store: &mut [u8], at: usize, bytes: &[u8]) -> Page {
    let Some(place) = store.get_mut(at..plus(at, bytes.len())) else {
        return put_unreadable(page);
    };
    place.copy_from_slice(bytes);
    put_yes(page)
}

// Where a plan begins.
fn put_start(page: Page, start: usize) -> Page {
    page.put(b" at=").number(start)
}

fn put_appended(page: Page, answer: Result<usize, AppendWhy>) -> Page {
    put_answer_with(page, answer, |page, start| put_start(page, start))
}

fn reply_newest(page: Page, store: &[u8]) -> Page {
    put_answer_with(page, logwalk::newest(store), |page, plan| {
        put_start(page, plan.start).put(b" size=").number(plan.size)
    })
}

// The starts of the plans before a plan, the newest first: no store has more plans than bytes.
fn put_earlier(page: Page, store: &[u8], plan: Span) -> Page {
    successors(Some(plan), |next| logwalk::previous(store, next.start).ok())
        .skip(1)
        .take(store.len())
        .fold(page, |page, plan| page.put(b",").number(plan.start))
}

fn reply_listed(page: Page, store: &[u8]) -> Page {
    put_answer_with(page, logwalk::newest(store), |page, plan| {
        put_earlier(put_start(page, plan.start), store, plan)
    })
}

fn reply_peek(page: Page, store: &[u8], at: usize, count: usize) -> Page {
    match store.get(at..plus(at, count)) {
        Some(bytes) => put_bytes(put_yes(page), b" bytes=", bytes),
        None => put_unreadable(page),
    }
}

/// The answer to a request, on as many bytes as the store has for it.
pub fn reply(page: Page, request: LogRequest<'_>, store: &mut [u8]) -> Page {
    match request {
        LogRequest::Store { byte, .. } => reply_store(page, store, byte),
        LogRequest::Put { at, bytes } => reply_put(page, store, at, bytes),
        LogRequest::Append { plan } => put_appended(page, planlog::append(store, plan)),
        LogRequest::Cut { plan, most } => put_appended(
            page,
            planlog::append_cut(store, plan, most),
        ),
        LogRequest::Newest => reply_newest(page, store),
        LogRequest::Listed => reply_listed(page, store),
        LogRequest::Peek { at, count } => reply_peek(page, store, at, count),
    }
}
