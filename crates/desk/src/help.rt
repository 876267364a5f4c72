//! The help: what there is to do, and how the texts are written.
use files::send;
use page::Page;

const HELP: &str = "desk: plans for jobs of two levels, in slots

  desk demo                       the whole story on a small list
  desk build JOBS PLAN            build the plan of a text job list, or say why not
  desk write JOBS TABLES PLAN     the plan of tables drawn by hand, or say why not
  desk check PLAN [JOBS]          yes, or the fault, with the jobs' names
  desk show PLAN [JOBS] [--svg]   draw both tables, here or as an SVG picture
  desk why PLAN [JOBS] [--svg]    a night on which a plan with a fault goes wrong
  desk run PLAN TICKS [JOBS]      the dispatcher over a text of ticks, a line a step
  desk run PLAN --demo N [JOBS]   the same over N ticks made here
  desk list PLAN                  the plan's job list, as text
  desk tables PLAN [JOBS]         the plan's tables, as text
  desk c PLAN NAME                the plan as an array in C, for the hut
  desk log STORE new BYTES|append PLAN|newest PLAN|list   plans kept in one file
  desk words                      every refusal, and what to do about it

JOBS has a line a job: NAME arrival deadline low|high CLO [CHI], in slots. A job may
run from its arrival to the slot before its deadline; a high job may need CHI slots.
A line NAME before NAME says that one job ends before another begins. Names are 1 to
32 letters, digits or signs. # begins a comment, and blank lines say nothing.
TABLES has a line LO and a line HI, and under each its runs of slots: 4-6 NAME, or 4
NAME, or 4-6 idle. check, show, why and tables take JOBS TABLES for PLAN [JOBS] too.
TICKS has a line a tick, 0 to 65535, and the word end after it where the job that
was ordered last has ended. The first tick opens the plan.
";

pub(crate) fn say(rt: &HostRuntime) {
    send(Page::output(rt).put(HELP.as_bytes()));
}
