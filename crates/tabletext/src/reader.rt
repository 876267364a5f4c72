//! A text of two tables read into their bytes, to the first mistake.
use crate::mistake::{Mistake, Wrong};
use joblist::Table;
use jobtext::line::{bare, number, word};
use jobtext::{Names, list};
use page::{after, less};
use std::alloc::{AllocError, Global};
use text::{find, same};

/// What was read: a byte for each slot of the list.
#[derive(Drop)]
pub struct Tables {
    pub low: Vec<u8>,
    pub high: Vec<u8>,
}

// A table while it is read: the line of its heading, and the entries that lines have given.
#[derive(Drop)]
struct Half {
    heading: Option<usize>,
    entries: Vec<Option<u8>>,
}

// The slots of a line, to before `end`, and their entry.
#[derive(Clone, Copy)]
struct Run {
    from: usize,
    end: usize,
    entry: u8,
}

// One of the two tables.
#[derive(Clone, Copy)]
enum Which {
    Low,
    High,
}

// What the lines are about, both tables so far, and which of them the lines are of.
#[derive(Drop)]
struct Reader<'a> {
    list: &'a [u8],
    names: &'a Names,
    low: Half,
    high: Half,
    which: Which,
}

// The first and the last slot of a run, which are one where the word has no dash.
fn slots_of(word: &[u8]) -> Option<(usize, usize)> {
    let dash = find(word, 0, b'-');
    let (from, last) = if dash < word.len() {
        (number(&word[..dash])?, number(&word[dash + 1..])?)
    } else {
        let slot = number(word)?;
        (slot, slot)
    };
    Some((usize::from(from), usize::from(last)))
}

// Whether a line has slots and a name, or slots and a job's number.
fn is_run(line: &[u8]) -> bool {
    word(line, 2).is_empty() || word(line, 3).is_empty() && same(word(line, 1), b"job")
}

// The entry of a job that is one of so many.
fn entry_of(job: Option<usize>, jobs: usize) -> Option<u8> {
    u8::try_from(job.filter(|j| *j < jobs)?).ok()
}

impl Half {
    // No heading yet, and no entry of any slot.
    fn new(alloc: Global, slots: usize) -> Result<Self, AllocError> {
        Ok(Half {
            heading: None,
            entries: vec![in alloc; None; slots]?,
        })
    }

    // The first slot of a run that a line has given.
    fn given(&self, from: usize, end: usize) -> Option<usize> {
        (from..end).find(|t| matches!(self.entries.get(*t), Some(Some(_))))
    }

    // A run given.
    fn give(&mut self, run: Run) {
        for entry in self.entries.iter_mut().take(run.end).skip(run.from) {
            *entry = Some(run.entry);
        }
    }

    // The table's bytes, where it is there and whole.
    fn bytes(&self, alloc: Global, missing: Mistake) -> Result<Vec<u8>, Mistake> {
        let Some(heading) = self.heading else {
            return Err(missing);
        };
        let mut bytes = Vec::new(alloc);
        for (t, entry) in self.entries.iter().enumerate() {
            let Some(entry) = entry else {
                return Err(Mistake::Line(heading, Wrong::LeftOut(t)));
            };
            bytes.push(*entry)?;
        }
        Ok(bytes)
    }
}

impl<'a> Reader<'a> {
    // No table yet.
    fn new(alloc: Global, list: &'a [u8], names: &'a Names) -> Result<Self, AllocError> {
        let slots = list::slots(list);
        Ok(Reader {
            list,
            names,
            low: Half::new(alloc, slots)?,
            high: Half::new(alloc, slots)?,
            which: Which::Low,
        })
    }

    // Whose a run is. `idle` is nobody, also where a job has that name: such a job goes by its number.
    fn entry(&self, line: &[u8]) -> Result<u8, Wrong> {
        let jobs = list::jobs(self.list);
        if !word(line, 2).is_empty() {
            let last = less(jobs, 1);
            let job = number(word(line, 2)).map(usize::from);
            return entry_of(job, jobs).ok_or(Wrong::Number(last));
        }
        if same(word(line, 1), b"idle") {
            return Ok(Table::IDLE);
        }
        entry_of(self.names.job_of(word(line, 1)), jobs).ok_or(Wrong::Name)
    }

    // The table that the lines are of.
    fn half(&self) -> &Half {
        match self.which {
            Which::Low => &self.low,
            Which::High => &self.high,
        }
    }

    fn half_mut(&mut self) -> &mut Half {
        match self.which {
            Which::Low => &mut self.low,
            Which::High => &mut self.high,
        }
    }

    // What a line gives.
    fn run(&self, line: &[u8]) -> Result<Run, Wrong> {
        if !is_run(line) {
            return Err(Wrong::Neither);
        }
        let (from, last) = slots_of(word(line, 0)).ok_or(Wrong::Neither)?;
        if last < from {
            return Err(Wrong::Backwards);
        }
        let slots = list::slots(self.list);
        if slots <= last {
            return Err(Wrong::Past(less(slots, 1)));
        }
        let end = last + 1;
        if let Some(t) = self.half().given(from, end) {
            return Err(Wrong::Twice(t));
        }
        if self.half().heading.is_none() {
            return Err(Wrong::Loose);
        }
        let entry = self.entry(line)?;
        Ok(Run { from, end, entry })
    }

    // A line of one word: the heading of a table that no line has begun yet.
    fn heading(&mut self, number: usize, name: &[u8]) -> Result<(), Wrong> {
        self.which = match name {
            b"LO" => Which::Low,
            b"HI" => Which::High,
            _ => return Err(Wrong::Neither),
        };
        if self.half().heading.is_some() {
            return Err(Wrong::Again);
        }
        self.half_mut().heading = Some(number);
        Ok(())
    }

    fn line(&mut self, number: usize, line: &[u8]) -> Result<(), Wrong> {
        if word(line, 0).is_empty() {
            return Ok(());
        }
        if word(line, 1).is_empty() {
            return self.heading(number, word(line, 0));
        }
        let run = self.run(line)?;
        self.half_mut().give(run);
        Ok(())
    }
}

/// Reads a text of the tables of a list, whose jobs have the names.
pub fn read(alloc: Global, text: &[u8], list: &[u8], names: &Names) -> Result<Tables, Mistake> {
    let mut reader = Reader::new(alloc, list, names)?;
    for (line, number) in text.split_inclusive(|x| *x == b'\n').zip(1..) {
        reader
            .line(number, bare(line))
            .map_err(|wrong| Mistake::Line(number, wrong))?;
    }
    let lines = text.split_inclusive(|x| *x == b'\n').count();
    let end = after(lines);
    let low = reader.low.bytes(alloc, Mistake::Line(end, Wrong::NoLow))?;
    let high = reader.high.bytes(alloc, Mistake::Line(end, Wrong::NoHigh))?;
    Ok(Tables { low, high })
}
