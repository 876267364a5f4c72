//! The whole story on a list of its own: a gate, a dish and a decoder share one computer.
use drawing::plan::Plan;
use files::send;
use jobtext::Jobs;
use page::Page;
use pairs::jobs_in;
use plans::PLAN_ROOM;

// The ticks that are run: two frames, past 65535.
const TICKS: usize = 24;

// The job list.
const JOBS: &str = "# name   arrival deadline level CLO CHI
gate           0       10  high    2   4
dish           2       12  high    2   3
decoder        0       12  low     4
beacon         0        6  low     1
dish before decoder
";

fn heading(page: Page, s: &[u8]) -> Page {
    page.put(b"$ desk ").line(s)
}

// The list, and the plan that was built.
fn tell_build(page: Page, plan: Plan) -> Page {
    let listed = page
        .line(b"A gate, a dish and a decoder share one computer. The job list, jobs:")
        .end()
        .put(JOBS.as_bytes())
        .end();
    plans::put_yes(heading(listed, b"build jobs plan"), b"plan", plan.bytes).end()
}

fn tell_check(page: Page, plan: Plan) -> Page {
    plans::put_check(heading(page, b"check plan jobs"), b"plan", plan).end()
}

fn tell_show(page: Page, plan: Plan) -> Page {
    plans::put_show(heading(page, b"show plan jobs"), plan).end()
}

fn tell_run(page: Page, plan: Plan) -> Page {
    let to = heading(page, b"run plan --demo 24 jobs");
    runs::made(to, plan.bytes, plan.names, TICKS)
}

fn tell_plan(page: Page, plan: Plan) -> Page {
    let checked = tell_check(tell_build(page, plan), plan);
    tell_run(tell_show(checked, plan), plan)
}

// desk demo
pub(crate) fn tell(rt: &HostRuntime) -> Option<()> {
    let Jobs { list, names } = jobs_in(rt, b"jobs", JOBS.as_bytes())?;
    let page = Page::output(rt);
    let mut room = [0u8; PLAN_ROOM];
    match plans::build(&list, &mut room) {
        Ok(bytes) => send(tell_plan(
            page,
            Plan {
                bytes,
                names: &names,
            },
        )),
        Err(no) => send(words::tell(page, &list, &names, no)),
    }
    Some(())
}
