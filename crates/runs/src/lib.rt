//! The dispatcher, tick by tick: over a text of ticks and marks, or over ticks made here.
#![tactic(auto)]

use dispatch::state::State;
use files::fail;
use joblist::{MOST_JOBS, Place};
use jobtext::line::{bare, number, word};
use jobtext::{Names, list};
use machine::answer::{Answer, Why};
use page::{Page, after};
use refusal::Refusal;
use std::fs::File;
use std::io;
use std::io::{BufRead, BufReader, Read};

// The tick that the first frame of made ticks begins with: a few before 65535.
const FIRST: u16 = 65530;

// More lines than any file has.
const LINES: u64 = 1099511627776;

// The bytes that are kept of a line: no line with a tick is longer, its end included.
const HELD: usize = 4096;

// What a line of ticks says. A value of its own, and no run that is handed on: a run is some thousand bytes, and a line that says
// nothing would copy them.
#[derive(Clone, Copy)]
enum Said {
    Nothing,
    Tick(u16, bool),
    Mistake,
}

// How far a run of a plan is: what is said, the state once it is open, the line, and the frame.
#[derive(Drop)]
struct Run<'a> {
    plan: &'a [u8],
    names: &'a Names,
    page: Page,
    state: Option<State>,
    line: usize,
    frame: usize,
}

impl<'a> Run<'a> {
    fn new(page: Page, plan: &'a [u8], names: &'a Names) -> Self {
        Run {
            plan,
            names,
            page,
            state: None,
            line: 0,
            frame: 0,
        }
    }

    // One step, and its line. The state is opened at the first tick, and a frame begins at slot 0.
    fn step(mut self, tick: u16, ended: bool) -> Self {
        let stepped = self
            .state
            .unwrap_or_else(|| dispatch::open::open(self.plan, tick).state)
            .step(tick, ended);
        let state = stepped.state;
        let page = self.page.put(b"tick ").number_right(usize::from(tick), 5);
        let marked = put_mark(page, ended);
        self.page = put_answer(marked, self.names, stepped.answer, &state).end();
        if state.head.slot == 0 {
            self.frame = after(self.frame);
        }
        self.state = Some(state);
        self
    }

    // A line that is no tick ends the run, and then all is said.
    fn mistaken(self) -> Page {
        let page = self.page.put(b"line ").number(self.line);
        page.line(b": expected a tick from 0 to 65535, and then nothing or the word end")
    }

    // How many units a job takes in a frame of made ticks: its high budget in every second frame, if it has one.
    fn wants(&self, j: usize) -> usize {
        let list = planfile::list_of(self.plan);
        if self.frame % 2 == 0 {
            list::high(list, j)
        } else {
            list::ordinary(list, j)
        }
    }

    // Whether the job ordered last has ended, by a made tick: none before the first.
    fn ends(&self) -> bool {
        let Some(state) = self.state else {
            return false;
        };
        let j = usize::from(state.head.ordered);
        state
            .units
            .get(j)
            .is_some_and(|units| self.wants(j) <= usize::from(*units) + 1)
    }
}

fn put_mark(page: Page, ended: bool) -> Page {
    if ended {
        page.put(b"  end  ")
    } else {
        page.blank(7)
    }
}

fn put_mode(page: Page, high: u8) -> Page {
    if high == 0 {
        page.put(b"  LO  ")
    } else {
        page.put(b"  HI  ")
    }
}

fn put_order(page: Page, names: &Names, j: usize) -> Page {
    if MOST_JOBS <= j {
        return page.put(b"idle");
    }
    names.put(page, j)
}

fn put_refusal(page: Page, names: &Names, w: Why) -> Page {
    let number = w.number();
    let to = words::meaning(page.put(b"no: ").number(number).put(b", "), number);
    let Place::AtJob(j) = w.place() else {
        return to;
    };
    names.put(to.put(b": "), j)
}

// What a step answered, with the slot and the mode after it.
fn put_answer(page: Page, names: &Names, answer: Answer, state: &State) -> Page {
    match answer {
        Ok(j) => {
            let slot = usize::from(state.head.slot);
            let to = put_mode(page.put(b"slot ").number_right(slot, 4), state.head.high);
            put_order(to, names, usize::from(j))
        }
        Err(w) => put_refusal(page, names, w),
    }
}

// The tick of a line, and whether the word end stands after it: none where anything else does.
fn tick_of(line: &[u8]) -> Option<(u16, bool)> {
    let tick = number(word(line, 0))?;
    match (word(line, 1), word(line, 2)) {
        (b"", b"") => Some((tick, false)),
        (b"end", b"") => Some((tick, true)),
        _ => None,
    }
}

// What a line says; one that is too long to be a tick is a mistake.
fn read_said(text: &[u8]) -> Said {
    let line = match text.strip_suffix(b"\n") {
        Some(line) => bare(line),
        None if HELD <= text.len() => return Said::Mistake,
        None => bare(text),
    };
    if word(line, 0).is_empty() {
        return Said::Nothing;
    }
    match tick_of(line) {
        Some((tick, ended)) => Said::Tick(tick, ended),
        None => Said::Mistake,
    }
}

// The next line of a text, and its end: how many bytes are kept of it, none where the text has ended.
fn read_line<R: BufRead>(text: &mut R, line: &mut Vec<u8>) -> io::Result<usize> {
    line.clear();
    text.by_ref().take(HELD as u64).read_until(b'\n', line)
}

// Every line of a text, up to one that ends the run. A proved loop ends, so the lines are counted.
fn lines<R: BufRead>(mut run: Run<'_>, text: &mut R, line: &mut Vec<u8>) -> Page {
    for _ in 0..LINES {
        match read_line(text, line) {
            Ok(0) => break,
            Ok(_) => run.line = after(run.line),
            Err(e) => {
                fail(run.page.aside(), b"desk: the ticks", e);
                break;
            }
        }
        match read_said(line.as_slice()) {
            Said::Nothing => {}
            Said::Tick(tick, ended) => run = run.step(tick, ended),
            Said::Mistake => return run.mistaken(),
        }
        // The text has ended where its last line has no end: a terminal would be asked once more.
        if !line.as_slice().ends_with(b"\n") {
            break;
        }
    }
    run.page
}

/// The whole text of a file.
pub fn file(rt: &HostRuntime, page: Page, plan: &[u8], names: &Names, file: &File) -> Page {
    let alloc = rt.alloc();
    let mut line = Vec::new(alloc);
    match BufReader::new(alloc, file) {
        Ok(mut text) => lines(Run::new(page, plan, names), &mut text, &mut line),
        Err(e) => {
            fail(page.aside(), b"desk: the ticks", e);
            page
        }
    }
}

/// n ticks made here.
pub fn made(page: Page, plan: &[u8], names: &Names, n: usize) -> Page {
    let mut run = Run::new(page, plan, names);
    let mut tick = FIRST;
    // The tick wraps at 65535, so no range counts it.
    for _ in 0..n {
        let ended = run.ends();
        run = run.step(tick, ended);
        tick = tick.wrapping_add(1);
    }
    run.page
}
