//! A text read into a list's bytes, with the names of the jobs, to the first mistake.
use crate::line::{bare, number, word};
use crate::mistake::{Mistake, Wrong};
use crate::names::{Names, name_of};
use joblist::MOST_JOBS;
use std::alloc::{AllocError, Global};
use std::collections::BTreeSet;
use text::same;

/// What was read: the list's bytes, and the names.
#[derive(Drop)]
pub struct Jobs {
    pub list: Vec<u8>,
    pub names: Names,
}

// The numbers of one job.
#[derive(Clone, Copy)]
struct Job {
    arrival: u16,
    deadline: u16,
    is_high: bool,
    ordinary: u16,
    high: u16,
}

// What was read so far. The set keeps the edges in the order of a list's bytes.
#[derive(Drop)]
struct Reader {
    names: Names,
    jobs: Vec<Job>,
    edges: BTreeSet<(u8, u8)>,
}

// Whether a level is the high one.
fn level(word: &[u8]) -> Option<bool> {
    match word {
        b"low" => Some(false),
        b"high" => Some(true),
        _ => None,
    }
}

// The high budget: the ordinary one where it is left out.
fn high(word: &[u8], ordinary: u16) -> Option<u16> {
    if word.is_empty() {
        Some(ordinary)
    } else {
        number(word)
    }
}

// The numbers of a job's line.
fn job_of(line: &[u8]) -> Result<Job, Wrong> {
    if word(line, 4).is_empty() {
        return Err(Wrong::Short);
    }
    let arrival = number(word(line, 1)).ok_or(Wrong::Arrival)?;
    let deadline = number(word(line, 2)).ok_or(Wrong::Deadline)?;
    let is_high = level(word(line, 3)).ok_or(Wrong::Level)?;
    let ordinary = number(word(line, 4)).ok_or(Wrong::Ordinary)?;
    let high = high(word(line, 5), ordinary).ok_or(Wrong::High)?;
    if !word(line, 6).is_empty() {
        return Err(Wrong::Long);
    }
    Ok(Job {
        arrival,
        deadline,
        is_high,
        ordinary,
        high,
    })
}

// Whether a line is an edge's.
fn is_edge(line: &[u8]) -> bool {
    same(word(line, 1), b"before")
}

fn put_number(list: &mut Vec<u8>, number: u16) -> Result<(), AllocError> {
    list.extend_from_slice(&number.to_le_bytes())
}

fn put_count(list: &mut Vec<u8>, count: usize) -> Result<(), AllocError> {
    put_number(list, u16::try_from(count).unwrap_or(u16::MAX))
}

fn put_job(list: &mut Vec<u8>, job: &Job) -> Result<(), AllocError> {
    put_number(list, job.arrival)?;
    put_number(list, job.deadline)?;
    put_number(list, job.ordinary)?;
    put_number(list, job.high)?;
    put_number(list, u16::from(job.is_high))
}

impl Reader {
    // Nothing yet.
    fn new(alloc: Global) -> Self {
        Reader {
            names: Names::none(),
            jobs: Vec::new(alloc),
            edges: BTreeSet::new(alloc),
        }
    }

    // The name and the numbers of a job's line.
    fn new_job<'a>(&self, line: &'a [u8]) -> Result<(&'a str, Job), Wrong> {
        let name = name_of(word(line, 0)).ok_or(Wrong::Name)?;
        let job = job_of(line)?;
        if self.names.job_of(word(line, 0)).is_some() {
            return Err(Wrong::Taken);
        }
        if MOST_JOBS <= self.jobs.len() {
            return Err(Wrong::Full);
        }
        Ok((name, job))
    }

    // One line, where it is a job's.
    fn read_job(&mut self, number: usize, line: &[u8]) -> Result<(), Mistake<Wrong>> {
        if word(line, 0).is_empty() || is_edge(line) {
            return Ok(());
        }
        let (name, job) = self
            .new_job(line)
            .map_err(|wrong| Mistake::Line(number, wrong))?;
        if !self.names.add(name.as_bytes()) {
            return Err(Mistake::Line(number, Wrong::Full));
        }
        self.jobs.push(job)?;
        Ok(())
    }

    // The job of a name, as a list has it.
    fn end_of(&self, name: &[u8]) -> Option<u8> {
        u8::try_from(self.names.job_of(name)?).ok()
    }

    // The jobs of an edge's line.
    fn new_edge(&self, line: &[u8]) -> Result<(u8, u8), Wrong> {
        if word(line, 2).is_empty() || !word(line, 3).is_empty() {
            return Err(Wrong::Edge);
        }
        let first = self.end_of(word(line, 0)).ok_or(Wrong::First)?;
        let second = self.end_of(word(line, 2)).ok_or(Wrong::Second)?;
        if self.edges.contains(&(first, second)) {
            return Err(Wrong::Twice);
        }
        Ok((first, second))
    }

    // One line, where it is an edge's.
    fn read_edge(&mut self, number: usize, line: &[u8]) -> Result<(), Mistake<Wrong>> {
        if !is_edge(line) {
            return Ok(());
        }
        let edge = self
            .new_edge(line)
            .map_err(|wrong| Mistake::Line(number, wrong))?;
        self.edges.insert(edge)?;
        Ok(())
    }

    // The list's bytes.
    fn list(&self, alloc: Global) -> Result<Vec<u8>, AllocError> {
        let slots = self.jobs.iter().map(|job| job.deadline).max().unwrap_or(0);
        let mut list = Vec::new(alloc);
        put_count(&mut list, self.jobs.len())?;
        put_count(&mut list, self.edges.len())?;
        put_number(&mut list, slots)?;
        put_number(&mut list, 0)?;
        for job in &self.jobs {
            put_job(&mut list, job)?;
        }
        for (first, second) in &self.edges {
            list.push(*first)?;
            list.push(*second)?;
        }
        Ok(list)
    }
}

/// Reads a text: first the jobs, and then, with all names known, the edges.
pub fn read(alloc: Global, text: &[u8]) -> Result<Jobs, Mistake<Wrong>> {
    let mut reader = Reader::new(alloc);
    for (line, number) in text.split_inclusive(|x| *x == b'\n').zip(1..) {
        reader.read_job(number, bare(line))?;
    }
    for (line, number) in text.split_inclusive(|x| *x == b'\n').zip(1..) {
        reader.read_edge(number, bare(line))?;
    }
    let list = reader.list(alloc)?;
    Ok(Jobs {
        list,
        names: reader.names,
    })
}
