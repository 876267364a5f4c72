//! The answer to each request, by the proved calls.
use crate::show::put_state;
use dispatch::state::State;
use machine::answer::Answer;
use page::Page;
use poke::field::Field;
use poke::poked;
use refusal::Refusal;
use replytext::{Shown, put_answer, put_answer_with, put_bytes};
use requests::{LogRequest, MOST_ROOM, Request, Tables};

// What lent bytes hold before a call.
const LENT: u8 = 0xaa;

// The answers, the dispatcher's state, and how many bytes the log's store has. The store itself is lent: with it in here an answer
// could fail, and a desk would go through a `Result` at each line, which copies it.
#[derive(Drop)]
pub(crate) struct Desk {
    page: Page,
    state: State,
    size: usize,
}

impl Desk {
    // Before the first open the state is all zero, and before the first store there is none.
    pub(crate) fn new(rt: &HostRuntime) -> Self {
        Desk {
            page: Page::output(rt),
            state: State::zero(),
            size: 0,
        }
    }

    // Sends the answers that are gathered.
    pub(crate) fn sent(mut self) -> Self {
        self.page = self.page.sent();
        self
    }

    // With one more answer, and the state that it shows.
    fn stated(mut self, state: State) -> Self {
        self.page = put_state(self.page, &state);
        self.state = state;
        self
    }

    fn open(mut self, plan: &[u8], first: u16) -> Self {
        let opened = dispatch::open::open(plan, first);
        self.page = put_answer(self.page, opened.answer);
        self.stated(opened.state)
    }

    fn step(mut self, tick: u16, ended: bool) -> Self {
        let stepped = self.state.step(tick, ended);
        self.page = put_order(self.page, stepped.answer);
        self.stated(stepped.state)
    }

    fn poke(mut self, field: Field, place: usize, value: usize) -> Self {
        let state = poked(self.state, field, place, value);
        self.page = self.page.put(b"0");
        self.stated(state)
    }

    // A request of the log, on the bytes that the store has for it.
    fn log(mut self, request: LogRequest<'_>, store: &mut [u8]) -> Self {
        let size = logreplies::size_for(request, self.size);
        let Some(bytes) = store.get_mut(..size) else {
            return self;
        };
        self.size = size;
        self.page = logreplies::reply(self.page, request, bytes).end();
        self
    }

    // A request that leaves the state and the store as they are.
    fn reply(mut self, request: Option<Request<'_>>) -> Self {
        self.page = put_reply(self.page, request).end();
        self
    }

    // With the answer to a request; to a line that cannot be read where there is none.
    pub(crate) fn answer(self, request: Option<Request<'_>>, store: &mut [u8]) -> Self {
        match request {
            Some(Request::Open { plan, first }) => self.open(plan, first),
            Some(Request::Step { tick, ended }) => self.step(tick, ended),
            Some(
                Request::Poke {
                    field,
                    place,
                    value,
                },
            ) => self.poke(field, place, value),
            Some(Request::Log(request)) => self.log(request, store),
            _ => self.reply(request),
        }
    }
}

// An answer that is made with n lent bytes, and all of them afterwards.
fn put_lent<W: Refusal, F: FnOnce(&mut [u8]) -> Result<usize, W>>(
    page: Page,
    n: usize,
    make: F,
) -> Page
where
    W::Place: Shown,
    requires { F.IsAlwaysCallable make }
{
    let mut space = [LENT; MOST_ROOM];
    let Some(lent) = space.get_mut(..n) else {
        return page;
    };
    let answer = make(lent);
    put_bytes(put_answer(page, answer), b" out=", lent)
}

// The parts of a plan that can be read.
fn put_plan(page: Page, plan: &[u8]) -> Page {
    let list = put_bytes(page, b" list=", planfile::list_of(plan));
    let lo = put_bytes(list, b" lo=", planfile::low_of(plan));
    put_bytes(lo, b" hi=", planfile::high_of(plan))
}

fn put_read(page: Page, plan: &[u8]) -> Page {
    put_answer_with(page, planfile::read(plan), |page, _| put_plan(page, plan))
}

fn put_count(page: Page, table: &[u8], job: usize, slot: usize) -> Page {
    let count = verdict::count::entries_before(table, job, slot);
    page.put(b"0 count=").number(count)
}

// The order, or why there is none.
fn put_order(page: Page, answer: Answer) -> Page {
    put_answer_with(
        page,
        answer,
        |page, j| page.put(b" order=").number(usize::from(j)),
    )
}

fn put_reply(page: Page, request: Option<Request<'_>>) -> Page {
    match request {
        Some(Request::List { list }) => put_answer(page, joblist::check_list(list)),
        Some(Request::Check { tables }) => put_answer(
            page,
            verdict::check(tables.list, tables.lo, tables.hi),
        ),
        Some(Request::Write { tables, lent }) => put_lent(page, lent, |out| {
            planfile::write(tables.list, tables.lo, tables.hi, out)
        }),
        Some(Request::Build { list, lent }) => put_lent(page, lent, |out| merge::build(list, out)),
        Some(Request::Read { plan }) => put_read(page, plan),
        Some(Request::Count { table, job, slot }) => put_count(page, table, job, slot),
        _ => page.put(b"?"),
    }
}
