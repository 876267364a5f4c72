//! The words of a command, and what they ask for.

// PLAN [JOBS], or JOBS TABLES.
#[derive(Clone, Copy)]
pub(crate) struct Given<'a> {
    pub path: &'a [u8],
    pub from: Option<&'a [u8]>,
}

// How a plan is shown.
#[derive(Clone, Copy)]
pub(crate) enum Look {
    Text,
    Picture,
}

// What is shown, and how.
#[derive(Clone, Copy)]
pub(crate) struct Sight<'a> {
    pub given: Given<'a>,
    pub look: Look,
}

// A text of ticks, or how many are made here.
#[derive(Clone, Copy)]
pub(crate) enum Ticks<'a> {
    In(&'a [u8]),
    Made(&'a [u8]),
}

// The files and words of each command stand in the order of the help.
#[derive(Clone, Copy)]
pub(crate) enum Command<'a> {
    Help,
    Demo,
    Build(&'a [u8], &'a [u8]),
    Write(&'a [u8], &'a [u8], &'a [u8]),
    Check(Given<'a>),
    Show(Sight<'a>),
    Why(Sight<'a>),
    Run(&'a [u8], Ticks<'a>, Option<&'a [u8]>),
    List(&'a [u8]),
    Tables(Given<'a>),
    C(&'a [u8], &'a [u8]),
    Log(&'a [u8], &'a [u8], &'a [u8]),
    Words,
}

// A word that may be left out.
fn some(word: &[u8]) -> Option<&[u8]> {
    if word.is_empty() { None } else { Some(word) }
}

impl<'a> Given<'a> {
    fn new(path: &'a [u8], from: &'a [u8]) -> Self {
        Given {
            path,
            from: some(from),
        }
    }
}

impl<'a> Sight<'a> {
    fn new(path: &'a [u8], from: &'a [u8], look: Look) -> Self {
        Sight {
            given: Given::new(path, from),
            look,
        }
    }

    // The mark of a picture stands before the files, between them or behind them.
    fn of(a: &'a [u8], b: &'a [u8], c: &'a [u8]) -> Self {
        let mark = b"--svg".as_slice();
        if a == mark {
            Sight::new(b, c, Look::Picture)
        } else if b == mark {
            Sight::new(a, c, Look::Picture)
        } else if c == mark {
            Sight::new(a, b, Look::Picture)
        } else {
            Sight::new(a, b, Look::Text)
        }
    }
}

impl<'a> Command<'a> {
    // Ticks are made here after a mark, and else they stand in a file.
    fn run(plan: &'a [u8], a: &'a [u8], b: &'a [u8], c: &'a [u8]) -> Self {
        if a == b"--demo".as_slice() {
            Command::Run(plan, Ticks::Made(b), some(c))
        } else {
            Command::Run(plan, Ticks::In(a), some(b))
        }
    }

    // What the words ask for. Those that are not given are empty, and an empty word that is given counts as none.
    pub(crate) fn of(words: [&'a [u8]; 5]) -> Self {
        match words {
            [b"demo", ..] => Command::Demo,
            [b"words", ..] => Command::Words,
            [_, b"", ..] => Command::Help,
            [b"check", path, from, ..] => Command::Check(Given::new(path, from)),
            [b"show", a, b, c, _] => Command::Show(Sight::of(a, b, c)),
            [b"why", a, b, c, _] => Command::Why(Sight::of(a, b, c)),
            [b"tables", path, from, ..] => Command::Tables(Given::new(path, from)),
            [b"list", plan, ..] => Command::List(plan),
            [_, _, b"", ..] => Command::Help,
            [b"build", jobs, to, ..] => Command::Build(jobs, to),
            [b"run", plan, a, b, c] => Command::run(plan, a, b, c),
            [b"c", plan, name, ..] => Command::C(plan, name),
            [b"log", store, word, given, _] => Command::Log(store, word, given),
            [_, _, _, b"", _] => Command::Help,
            [b"write", jobs, tables, to, _] => Command::Write(jobs, tables, to),
            _ => Command::Help,
        }
    }
}
