//! What a command is given: a plan file, with a job list that lends its names; or a job list, with its two tables drawn by
//! hand. Both come out as the bytes of a plan with the names of its jobs, so that a command is made once. Where nothing comes
//! out, it was said why.
#![tactic(auto)]

use drawing::plan::Plan;
use files::{complain, fail, send};
use jobtext::{Jobs, Names};
use page::Page;
use tabletext::Tables;

/// Where the tables of a pair are from: a plan file, whose names may be those of another list; or they were drawn by hand.
#[derive(Clone, Copy, PartialEq, Eq)]
pub enum Source {
    Plan,
    PlanOfOther,
    Drawn,
}

/// The file of the tables; the bytes of a plan, which the check may have something against; and the names of its jobs.
#[derive(Drop)]
pub struct Pair<'a> {
    pub path: &'a [u8],
    pub source: Source,
    bytes: Vec<u8>,
    names: Names,
}

impl Pair<'_> {
    /// The plan that a command is about.
    pub fn plan(&self) -> Plan<'_> {
        Plan {
            bytes: &self.bytes,
            names: &self.names,
        }
    }
}

/// Reads a text of jobs that stands in a file.
pub fn jobs_in(rt: &HostRuntime, path: &[u8], text: &[u8]) -> Option<Jobs> {
    match jobtext::read(rt.alloc(), text) {
        Ok(jobs) => Some(jobs),
        Err(mistake) => {
            complain(jobtext::put_mistake(Page::errors(rt), path, &mistake));
            None
        }
    }
}

/// Reads a file of jobs.
pub fn read_jobs(rt: &HostRuntime, path: &[u8]) -> Option<Jobs> {
    let text = files::read(rt, path)?;
    jobs_in(rt, path, &text)
}

// The bytes of a plan file, with the names of its jobs; they go by their numbers, where no text is given.
fn named<'a>(
    rt: &HostRuntime,
    path: &'a [u8],
    bytes: Vec<u8>,
    jobs: Option<&[u8]>,
) -> Option<Pair<'a>> {
    let mut pair = Pair {
        path,
        source: Source::Plan,
        bytes,
        names: Names::none(),
    };
    if let Some(jobs) = jobs {
        let Jobs { list, names } = read_jobs(rt, jobs)?;
        if list.as_slice() != pair.plan().list() {
            pair.source = Source::PlanOfOther;
        }
        pair.names = names;
    }
    Some(pair)
}

/// A plan file, with the names of its jobs.
pub fn planned<'a>(rt: &HostRuntime, path: &'a [u8], from: Option<&[u8]>) -> Option<Pair<'a>> {
    let bytes = files::read(rt, path)?;
    named(rt, path, bytes, from)
}

// Reads a text of tables that stands in a file.
fn tables_in(rt: &HostRuntime, path: &[u8], text: &[u8], jobs: &Jobs) -> Option<Tables> {
    match tabletext::read(rt.alloc(), text, &jobs.list, &jobs.names) {
        Ok(tables) => Some(tables),
        Err(mistake) => {
            complain(tabletext::put_mistake(Page::errors(rt), path, &mistake));
            None
        }
    }
}

// The bytes of a plan with the tables of a file.
fn joined(rt: &HostRuntime, path: &[u8], list: &[u8], tables: &Tables) -> Option<Vec<u8>> {
    match plans::join(rt.alloc(), list, &tables.low, &tables.high) {
        Ok(bytes) => Some(bytes),
        Err(e) => {
            fail(Page::errors(rt), path, e.into());
            None
        }
    }
}

// A list and the file of its tables. Where the list is refused the page says so, and the tables are not looked at.
fn with_tables<'a>(rt: &HostRuntime, jobs: Jobs, path: &'a [u8], page: Page) -> Option<Pair<'a>> {
    if let Err(no) = plans::check_list(&jobs.list) {
        send(words::tell(page, &jobs.list, &jobs.names, no));
        return None;
    }
    let text = files::read(rt, path)?;
    let tables = tables_in(rt, path, &text, &jobs)?;
    let bytes = joined(rt, path, &jobs.list, &tables)?;
    Some(Pair {
        path,
        source: Source::Drawn,
        bytes,
        names: jobs.names,
    })
}

/// A file of jobs and the file of its tables.
pub fn drawn<'a>(rt: &HostRuntime, jobs: &[u8], path: &'a [u8], page: Page) -> Option<Pair<'a>> {
    with_tables(rt, read_jobs(rt, jobs)?, path, page)
}

// Whether bytes are a text: every plan has a byte 0, also one that lost its end, and no text has.
fn is_text(s: &[u8]) -> bool {
    !s.is_empty() && !s.contains(&0)
}

/// PLAN [JOBS], or JOBS TABLES: what the first file is decides. The page is for what is against a list.
pub fn given<'a>(
    rt: &HostRuntime,
    path: &'a [u8],
    from: Option<&'a [u8]>,
    page: Page,
) -> Option<Pair<'a>> {
    let bytes = files::read(rt, path)?;
    match from {
        Some(tables) if is_text(&bytes) => {
            with_tables(rt, jobs_in(rt, path, &bytes)?, tables, page)
        }
        _ => named(rt, path, bytes, from),
    }
}
