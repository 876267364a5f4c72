//! Requests on standard input, answers on standard output, a line each: what outside programs are compared with.
#![tactic(auto)]

mod lines;
mod reply;
mod show;

use std::io;

fn main(rt: HostRuntime) -> io::Result<()> {
    lines::answer_all(&rt)
}
