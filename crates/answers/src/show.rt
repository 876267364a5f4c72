//! The dispatcher's state as text, for the jobs below n.
use dispatch::state::State;
use joblist::MOST_JOBS;
use page::Page;

// A mark is shown as 0 or 1.
fn mark(x: u8) -> usize {
    usize::from(x != 0)
}

// A value for each of the first n jobs: a comma before each but the first.
fn put_row<T: Copy, F: Fn(T) -> usize>(
    page: Page,
    name: &[u8],
    row: &[T],
    n: usize,
    shown: &F,
) -> Page
    requires { F.IsAlwaysCallable shown.now }
{
    let mut page = page.put(name);
    for (j, x) in row.iter().take(n).enumerate() {
        if j != 0 {
            page = page.put(b",");
        }
        page = page.number(shown(*x));
    }
    page
}

fn put_values(page: Page, state: &State) -> Page {
    page.put(b" | slot=")
        .number(usize::from(state.head.slot))
        .put(b" tick=")
        .number(usize::from(state.head.last))
        .put(b" ordered=")
        .number(usize::from(state.head.ordered))
        .put(b" high=")
        .number(mark(state.head.high))
        .put(b" halted=")
        .number(mark(state.head.halted))
}

// The state, to the end of its line. One without jobs, or with too many, has nothing to show.
pub(crate) fn put_state(page: Page, state: &State) -> Page {
    let n = usize::from(state.plan.counts.n);
    if n == 0 || MOST_JOBS < n {
        return page.line(b" | -");
    }
    let counted = put_row(
        put_values(page, state),
        b" units=",
        &state.units,
        n,
        &|x| usize::from(x),
    );
    let ended = put_row(counted, b" done=", &state.done, n, &mark);
    put_row(ended, b" cut=", &state.cut, n, &mark).end()
}
