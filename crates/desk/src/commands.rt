//! The commands, each with the files that it reads and writes. One that stops halfway said why.
use crate::command::{Given, Look, Sight, Ticks};
use drawing::plan::{Plan, Table};
use files::{complain, fail, send};
use jobtext::{Jobs, Names};
use page::Page;
use pairs::{Pair, Source, drawn, given, planned, read_jobs};
use plans::PLAN_ROOM;
use words::No;

// The most ticks that are made here.
const MOST_MADE: usize = 100000;

// desk words
pub(crate) fn words(rt: &HostRuntime) {
    send(words::table(Page::output(rt)));
}

// Saves a plan that was made, or says why none was.
fn keep(rt: &HostRuntime, to: &[u8], made: Result<&[u8], No>, list: &[u8], names: &Names) {
    let page = Page::output(rt);
    match made {
        Ok(plan) => {
            if files::write(rt, to, plan) {
                send(plans::put_yes(page, to, plan));
            }
        }
        Err(no) => send(words::tell(page, list, names, no)),
    }
}

// desk build JOBS PLAN
pub(crate) fn build(rt: &HostRuntime, from: &[u8], to: &[u8]) -> Option<()> {
    let Jobs { list, names } = read_jobs(rt, from)?;
    let mut room = [0u8; PLAN_ROOM];
    keep(rt, to, plans::build(&list, &mut room), &list, &names);
    Some(())
}

// desk write JOBS TABLES PLAN
pub(crate) fn write(rt: &HostRuntime, from: &[u8], tables: &[u8], to: &[u8]) -> Option<()> {
    let pair = drawn(rt, from, tables, Page::output(rt))?;
    let plan = pair.plan();
    let mut room = [0u8; PLAN_ROOM];
    let made = plans::write(plan.bytes, &mut room);
    keep(rt, to, made, plan.list(), plan.names);
    Some(())
}

// Says so where the names are of another list than the plan's.
fn note(rt: &HostRuntime, pair: &Pair) {
    if pair.source == Source::PlanOfOther {
        let page = Page::errors(rt);
        complain(page.line(b"note: the job list is not the plan's; the names are given by order"));
    }
}

// Says why a plan is none.
fn refuse(rt: &HostRuntime, plan: Plan) {
    complain(plans::put_fault(Page::errors(rt), plan));
}

// desk check PLAN [JOBS], and desk check JOBS TABLES
pub(crate) fn check(rt: &HostRuntime, files: Given) -> Option<()> {
    let pair = given(rt, files.path, files.from, Page::output(rt))?;
    let page = Page::output(rt);
    if pair.source == Source::Drawn {
        send(plans::put_drawn(page, files.path, pair.path, pair.plan()));
    } else {
        send(plans::put_check(page, pair.path, pair.plan()));
    }
    note(rt, &pair);
    Some(())
}

// The picture goes to the output by itself, and what the check has against the plan to standard error.
fn draw(rt: &HostRuntime, plan: Plan, look: Look) {
    if !plans::is_whole(plan.bytes) {
        refuse(rt, plan);
        return;
    }
    let page = Page::output(rt);
    match look {
        Look::Text => send(plans::put_show(page, plan)),
        Look::Picture => {
            send(picture::put_picture(page, plan));
            refuse(rt, plan);
        }
    }
}

// desk show: PLAN [JOBS] [--svg], or JOBS TABLES [--svg]
pub(crate) fn show(rt: &HostRuntime, sight: Sight) -> Option<()> {
    let files = sight.given;
    let pair = given(rt, files.path, files.from, Page::errors(rt))?;
    draw(rt, pair.plan(), sight.look);
    note(rt, &pair);
    Some(())
}

// A good plan has no night to show, and so no picture either.
fn say_good(rt: &HostRuntime, path: &[u8], look: Look) {
    match look {
        Look::Text => send(plans::put_good(Page::output(rt), path)),
        Look::Picture => complain(plans::put_good(Page::errors(rt), path)),
    }
}

// The night on which a plan goes wrong, in words or as a picture.
fn tell_night(rt: &HostRuntime, plan: Plan, look: Look) {
    if !plans::is_whole(plan.bytes) {
        refuse(rt, plan);
        return;
    }
    let page = Page::output(rt);
    match look {
        Look::Text => send(nights::put_night(plans::put_fault(page, plan), plan)),
        Look::Picture => {
            send(nightpicture::put_picture(page, plan));
            refuse(rt, plan);
        }
    }
}

// desk why: PLAN [JOBS] [--svg], or JOBS TABLES [--svg]
pub(crate) fn why(rt: &HostRuntime, sight: Sight) -> Option<()> {
    let files = sight.given;
    let pair = given(rt, files.path, files.from, Page::errors(rt))?;
    let plan = pair.plan();
    if plans::is_accepted(plan.bytes) {
        say_good(rt, pair.path, sight.look);
    } else {
        tell_night(rt, plan, sight.look);
    }
    note(rt, &pair);
    Some(())
}

// desk tables PLAN [JOBS], and desk tables JOBS TABLES: the text goes to the output by itself, as a picture does.
pub(crate) fn tables(rt: &HostRuntime, files: Given) -> Option<()> {
    let pair = given(rt, files.path, files.from, Page::errors(rt))?;
    let plan = pair.plan();
    if plans::is_whole(plan.bytes) {
        let page = Page::output(rt);
        let low = plan.table(Table::Low);
        send(tabletext::put_pair(page, low, plan.table(Table::High), plan.names));
    }
    refuse(rt, plan);
    note(rt, &pair);
    Some(())
}

// desk list PLAN
pub(crate) fn list(rt: &HostRuntime, path: &[u8]) -> Option<()> {
    let pair = planned(rt, path, None)?;
    let plan = pair.plan();
    if plans::is_whole(plan.bytes) {
        send(jobtext::put_list(Page::output(rt), plan.list()));
    } else {
        refuse(rt, plan);
    }
    Some(())
}

// Whether the dispatcher can run a plan; says why where it can't.
fn is_runnable(rt: &HostRuntime, plan: Plan) -> bool {
    let is_accepted = plans::is_accepted(plan.bytes);
    if !is_accepted {
        refuse(rt, plan);
    }
    is_accepted
}

// desk c PLAN NAME
pub(crate) fn c(rt: &HostRuntime, path: &[u8], name: &[u8]) -> Option<()> {
    if !ctext::is_name(name) {
        let page = Page::errors(rt);
        complain(page.line(
            b"desk c PLAN NAME: expected a name of C: letters, digits and _, no digit first, and no word that C has",
        ));
        return None;
    }
    let pair = planned(rt, path, None)?;
    let plan = pair.plan();
    if is_runnable(rt, plan) {
        send(ctext::put_source(Page::output(rt), plan.bytes, name));
    }
    Some(())
}

fn run_ticks(rt: &HostRuntime, ticks: &[u8], plan: Plan) {
    match files::open(rt, ticks) {
        Ok(file) => send(runs::file(rt, Page::output(rt), plan.bytes, plan.names, &file)),
        Err(e) => fail(Page::errors(rt), ticks, e),
    }
}

fn run_many(rt: &HostRuntime, count: &[u8], plan: Plan) {
    match text::number(count, MOST_MADE) {
        Some(n) => send(runs::made(Page::output(rt), plan.bytes, plan.names, n)),
        None => {
            let page = Page::errors(rt);
            complain(page.line(b"desk run PLAN --demo N: expected a number N from 0 to 100000"));
        }
    }
}

// desk run PLAN TICKS [JOBS], and desk run PLAN --demo N [JOBS]
pub(crate) fn run(rt: &HostRuntime, path: &[u8], ticks: Ticks, jobs: Option<&[u8]>) -> Option<()> {
    let pair = planned(rt, path, jobs)?;
    let plan = pair.plan();
    if !is_runnable(rt, plan) {
        return None;
    }
    match ticks {
        Ticks::In(text) => run_ticks(rt, text, plan),
        Ticks::Made(count) => run_many(rt, count, plan),
    }
    note(rt, &pair);
    Some(())
}
