//! The log of plans in a file: its store made, appended to and read.
#![tactic(auto)]

mod writes;

use files::{complain, fail, send, unwritten};
use logtext::{end_of, plan_at};
use logwalk::{FindWhy, STORE_MOST, Span};
use page::Page;
use std::fs::File;

fn misused(rt: &HostRuntime) {
    let page = Page::errors(rt);
    complain(page.line(b"desk log STORE new BYTES: expected a number BYTES from 1 to 65536"));
}

// A store in the file of a path.
#[derive(Clone, Copy)]
struct Store<'a> {
    rt: &'a HostRuntime,
    path: &'a [u8],
}

impl Store<'_> {
    // desk log STORE new BYTES; a store that would be too large is told as one that is.
    fn make(self, bytes: &[u8]) {
        match text::number(bytes, STORE_MOST) {
            Some(size) if size != 0 => self.make_of(size),
            None if bytes.iter().all(|x| x.is_ascii_digit()) => {
                send(logtext::put_not_found(Page::output(self.rt), FindWhy::Large));
            }
            _ => misused(self.rt),
        }
    }

    fn make_of(self, size: usize) {
        // An array and no `Vec`, so that no memory can run out here.
        let zeros = [0u8; STORE_MOST];
        if files::create(self.rt, self.path, zeros.get(..size).unwrap_or(&zeros)) {
            send(logtext::put_made(Page::output(self.rt), self.path, size));
        }
    }

    // desk log STORE append PLAN
    fn append(self, from: &[u8]) {
        match files::open_update(self.rt, self.path) {
            Ok(file) => self.append_open(&file, from),
            Err(e) => {
                fail(Page::errors(self.rt), self.path, e);
                unwritten(self.rt, self.path);
            }
        }
    }

    fn append_open(self, file: &File, from: &[u8]) {
        let Some(store) = files::read_open(self.rt, file, self.path) else {
            return;
        };
        let Some(plan) = files::read(self.rt, from) else {
            return;
        };
        let size = store.len();
        let at = match planlog::room_for(&store, &plan) {
            Ok(at) => at,
            Err(w) => {
                send(logtext::put_refused(Page::output(self.rt), &plan, w));
                return;
            }
        };
        // It is said to be there once all is on the disk.
        match writes::make(file, size, at, &plan) {
            Ok(()) => send(logtext::put_appended(Page::output(self.rt), from, &plan, at, size)),
            Err(e) => {
                fail(Page::errors(self.rt), self.path, e);
                complain(logtext::put_cut(Page::errors(self.rt), self.path));
            }
        }
    }

    // desk log STORE newest PLAN
    fn newest(self, to: &[u8]) {
        let Some(store) = files::read(self.rt, self.path) else {
            return;
        };
        match logwalk::newest(&store) {
            Ok(span) => self.save(to, &store, span),
            Err(w) => send(logtext::put_not_found(Page::output(self.rt), w)),
        }
    }

    fn save(self, to: &[u8], store: &[u8], span: Span) {
        let plan = plan_at(store, span);
        if self.is_over(to, store, plan) {
            complain(logtext::put_own(Page::errors(self.rt), to));
            unwritten(self.rt, to);
        } else if files::write(self.rt, to, plan) {
            send(logtext::put_found(Page::output(self.rt), to, plan, span.start));
        }
    }

    // Whether a plan would go over the store itself, or over a copy of it; a store that is this one plan loses nothing.
    fn is_over(self, to: &[u8], store: &[u8], plan: &[u8]) -> bool {
        store != plan && files::has(self.rt, to, store)
    }

    // desk log STORE list
    fn list(self) {
        let Some(store) = files::read(self.rt, self.path) else {
            return;
        };
        match logwalk::newest(&store) {
            Ok(span) => {
                let page = Page::output(self.rt);
                send(logtext::put_list(page, self.path, &store, end_of(span)));
            }
            Err(w) => complain(logtext::put_not_found(Page::errors(self.rt), w)),
        }
    }
}

/// desk log STORE WORD ..: whether there is such a command. Each but list is given one word more; an empty word is as good
/// as none.
pub fn command(rt: &HostRuntime, path: &[u8], word: &[u8], given: &[u8]) -> bool {
    let store = Store { rt, path };
    match (word, given) {
        (b"list", _) => store.list(),
        (_, b"") => return false,
        (b"new", bytes) => store.make(bytes),
        (b"append", plan) => store.append(plan),
        (b"newest", plan) => store.newest(plan),
        _ => return false,
    }
    true
}
