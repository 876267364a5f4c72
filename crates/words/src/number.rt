//! Every number of a refusal in words: what it means, and what to do about it.
use page::Page;

// What is said of a number.
struct Row {
    number: usize,
    meaning: &'static str,
    advice: &'static str,
}

static REFUSALS: [Row; 35] = [
    Row {
        number: 1,
        meaning: "the list does not have 1 to 64 jobs",
        advice: "write one line for each job, 1 to 64 in all",
    },
    Row {
        number: 2,
        meaning: "the list has more than 256 edges",
        advice: "leave out edges that others give: a before b, b before c need no a before c",
    },
    Row {
        number: 3,
        meaning: "the frame does not have 1 to 1,024 slots, or its length is not the largest deadline",
        advice: "keep every deadline from 1 to 1,024",
    },
    Row {
        number: 4,
        meaning: "a job's arrival is not before its deadline, or the deadline is over 1,024",
        advice: "put the deadline after the arrival, at 1,024 or before",
    },
    Row {
        number: 5,
        meaning: "a job's budgets are not 1 <= CLO <= CHI <= 1,024, or a low job has two",
        advice: "give a low job one budget, and a high job a second that is not smaller",
    },
    Row {
        number: 6,
        meaning: "a job's level is neither low nor high",
        advice: "write low or high",
    },
    Row {
        number: 7,
        meaning: "an edge names no job, names one job twice, or is out of order",
        advice: "name two different jobs of the list",
    },
    Row {
        number: 8,
        meaning: "an edge goes from a low job to a high job",
        advice: "make both jobs high, or leave the edge out",
    },
    Row {
        number: 9,
        meaning: "the edges form a cycle",
        advice: "leave out one edge of the cycle",
    },
    Row {
        number: 10,
        meaning: "a job is unfinished at its deadline",
        advice: "give the job more slots before its deadline, or the deadline more time",
    },
    Row {
        number: 11,
        meaning: "a job is named before its arrival",
        advice: "name the job in a later slot",
    },
    Row {
        number: 12,
        meaning: "a job is named before a job that it waits for has finished",
        advice: "name the job that it waits for in earlier slots",
    },
    Row {
        number: 20,
        meaning: "the low jobs alone, earliest deadline first, miss a deadline",
        advice: "give low jobs later deadlines, smaller budgets or fewer edges",
    },
    Row {
        number: 21,
        meaning: "the high jobs alone, earliest deadline first and with CHI, miss a deadline",
        advice: "give high jobs later deadlines or smaller high budgets",
    },
    Row {
        number: 22,
        meaning: "a low job and a high job both have to run in this slot",
        advice: "widen the window of a job that runs here, or make a budget smaller",
    },
    Row {
        number: 23,
        meaning: "a low job has to run in this slot, and a job that it waits for is not done",
        advice: "let the job that it waits for arrive earlier, or this one end later",
    },
    Row {
        number: 24,
        meaning: "the pair that was built fails the check",
        advice: "widen the window of the job named here; another pair may still exist",
    },
    Row {
        number: 30,
        meaning: "the same tick came twice",
        advice: "go on with the next tick: nothing has changed",
    },
    Row {
        number: 31,
        meaning: "ticks were lost, and the dispatcher halts",
        advice: "find why ticks were lost, and open the plan again",
    },
    Row {
        number: 32,
        meaning: "the dispatcher has halted",
        advice: "open the plan again",
    },
    Row {
        number: 33,
        meaning: "the tick is stale: it is from before the last one",
        advice: "drop the tick: nothing has changed",
    },
    Row {
        number: 34,
        meaning: "an end was signalled, and no job was ordered",
        advice: "signal an end only for a job that was ordered: give this tick again without it",
    },
    Row {
        number: 35,
        meaning: "a high job ran to its high budget and did not end, and the dispatcher halts",
        advice: "see why the job did not end, and open the plan again",
    },
    Row {
        number: 36,
        meaning: "the tick is half the counter away, as far ahead as behind, and the dispatcher halts",
        advice: "see what became of the tick counter, and open the plan again",
    },
    Row {
        number: 37,
        meaning: "the state is no dispatcher's state: no plan is open, or memory was overwritten",
        advice: "open the plan again, and see that the opening was not refused",
    },
    Row {
        number: 40,
        meaning: "too few bytes: a list has 8 or more, a plan 16 or more",
        advice: "the file was cut off: copy it again, or build it again",
    },
    Row {
        number: 41,
        meaning: "the last four bytes are not the mark of a plan",
        advice: "this is no plan file, or its end is missing: build it again",
    },
    Row {
        number: 42,
        meaning: "the trailer's distance is not the length less 8",
        advice: "bytes were lost or added: copy it again, or build it again",
    },
    Row {
        number: 43,
        meaning: "the length is not what the counts give",
        advice: "bytes were lost or added: copy it again, or build it again",
    },
    Row {
        number: 44,
        meaning: "a field that has to be zero is not",
        advice: "the file was changed by hand or damaged: build it again",
    },
    Row {
        number: 45,
        meaning: "a table has a byte that is neither a job of the list nor idle",
        advice: "use a job's number, or 255 for idle",
    },
    Row {
        number: 46,
        meaning: "the output is shorter than the plan",
        advice: "lend 3,216 bytes: no plan has more",
    },
    Row {
        number: 50,
        meaning: "the plan does not fit behind the last whole plan of the store",
        advice: "begin another store: desk log STORE new BYTES",
    },
    Row {
        number: 51,
        meaning: "the store holds no whole plan",
        advice: "append a plan, or see whether this is the store that you mean",
    },
    Row {
        number: 52,
        meaning: "the store has more than 65,536 bytes",
        advice: "use a store of 65,536 bytes or fewer",
    },
];

fn of_number(number: usize) -> Option<&'static Row> {
    REFUSALS.iter().find(|row| row.number == number)
}

/// What a number means; nothing where no refusal has it.
pub fn meaning(page: Page, number: usize) -> Page {
    match of_number(number) {
        Some(row) => page.put(row.meaning.as_bytes()),
        None => page,
    }
}

/// What to do about it.
pub fn advice(page: Page, number: usize) -> Page {
    match of_number(number) {
        Some(row) => page.put(row.advice.as_bytes()),
        None => page,
    }
}

fn put_refusal(page: Page, row: &Row) -> Page {
    let said = page.number_right(row.number, 4).blank(2);
    let to = said.line(row.meaning.as_bytes()).blank(6);
    to.put(b"do: ").line(row.advice.as_bytes())
}

/// All of them.
pub fn table(page: Page) -> Page {
    REFUSALS.iter().fold(page, put_refusal)
}
