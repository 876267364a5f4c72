//! desk: the command for the people at the desk. What it does is done by the proved calls; this reads, writes and prints.
#![tactic(auto)]

mod command;
mod commands;
mod help;
mod story;

use command::Command;
use std::env::Env;

// The bytes of the longest word of the command.
const WORD: usize = 4096;

// Word i of the command; nothing where it has fewer, or where the word is longer.
fn word<'a>(rt: &HostRuntime, i: usize, room: &'a mut [u8; WORD]) -> &'a [u8] {
    match rt.arg(i, room) {
        Ok(size) => &room[..size],
        Err(_) => b"",
    }
}

// Does what was asked, and stops where it was said why.
fn run(rt: &HostRuntime, command: Command) -> Option<()> {
    match command {
        Command::Help => help::say(rt),
        Command::Demo => story::tell(rt)?,
        Command::Build(jobs, to) => commands::build(rt, jobs, to)?,
        Command::Write(jobs, tables, to) => commands::write(rt, jobs, tables, to)?,
        Command::Check(files) => commands::check(rt, files)?,
        Command::Show(sight) => commands::show(rt, sight)?,
        Command::Why(sight) => commands::why(rt, sight)?,
        Command::Run(plan, ticks, jobs) => commands::run(rt, plan, ticks, jobs)?,
        Command::List(plan) => commands::list(rt, plan)?,
        Command::Tables(files) => commands::tables(rt, files)?,
        Command::C(plan, name) => commands::c(rt, plan, name)?,
        Command::Log(store, word, given) => {
            if !logs::command(rt, store, word, given) {
                help::say(rt);
            }
        }
        Command::Words => commands::words(rt),
    }
    Some(())
}

// The words are bytes in lent rooms, and no `String`s: a path may have any bytes.
fn main(rt: HostRuntime) {
    // Five rooms: of one array of five, lent piece by piece, the proof did not close.
    let mut a = [0u8; WORD];
    let mut b = [0u8; WORD];
    let mut c = [0u8; WORD];
    let mut d = [0u8; WORD];
    let mut e = [0u8; WORD];
    let words = [
        word(&rt, 1, &mut a),
        word(&rt, 2, &mut b),
        word(&rt, 3, &mut c),
        word(&rt, 4, &mut d),
        word(&rt, 5, &mut e),
    ];
    let _ = run(&rt, Command::of(words));
}
