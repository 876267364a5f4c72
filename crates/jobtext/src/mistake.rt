//! A mistake in a text: the line, and what was expected there.
ghost use Rattle.std.specs.Prelude.{◌≡◌};
ghost use Rattle.jobtext.specs.declared.mistake.Mistake.TheVariants.{NoMemory};

use page::Page;
use std::alloc::{AllocError, AllocFailed};

/// What can be wrong with a line says what was expected there.
pub trait Expected {
    // Not `Display`: a page is handed on by value, so that would be no plainer, with a writer around it at each call.
    fn put_expected(&self, page: Page) -> Page;
}

/// Why a text was not read: what is wrong, and in which line; or that memory ran out.
#[derive(Clone, Copy, Debug, PartialEq, Eq)]
pub enum Mistake<W> {
    Line(usize, W),
    NoMemory,
}

impl<W> From<AllocError> for Mistake<W> {
    ghost from_gives = { λ _ e. e ≡ NoMemory };

    fn from(_e: AllocError) -> Mistake<W> {
        Mistake::NoMemory
    }
}

impl<W, T: Drop> From<AllocFailed<T>> for Mistake<W> {
    ghost from_gives = { λ _ e. e ≡ NoMemory };

    fn from(_e: AllocFailed<T>) -> Mistake<W> {
        Mistake::NoMemory
    }
}

/// Says where a text is mistaken, and what was expected there.
pub fn put_mistake<W: Expected>(page: Page, path: &[u8], mistake: &Mistake<W>) -> Page {
    let at = page.put(path).put(b": ");
    match mistake {
        Mistake::Line(line, wrong) => {
            let here = at.put(b"line ").number(*line).put(b": expected ");
            wrong.put_expected(here).end()
        }
        Mistake::NoMemory => at.line(b"out of memory"),
    }
}

/// What is wrong with a line of a job list.
#[derive(Clone, Copy, Debug, PartialEq, Eq)]
pub enum Wrong {
    Name,
    Short,
    Arrival,
    Deadline,
    Level,
    Ordinary,
    High,
    Long,
    Taken,
    Full,
    Edge,
    First,
    Second,
    Twice,
}

impl Expected for Wrong {
    fn put_expected(&self, page: Page) -> Page {
        page.put(match self {
            Wrong::Name => b"a name of 1 to 32 bytes, letters, digits or signs",
            Wrong::Short => b"NAME arrival deadline low|high CLO [CHI], or NAME before NAME",
            Wrong::Arrival => b"the arrival, a number from 0 to 65535, after the name",
            Wrong::Deadline => b"the deadline, a number from 0 to 65535, after the arrival",
            Wrong::Level => b"low or high after the deadline",
            Wrong::Ordinary => b"the budget CLO, a number from 0 to 65535, after the level",
            Wrong::High => b"the budget CHI, a number from 0 to 65535, after CLO",
            Wrong::Long => b"nothing after the budget CHI",
            Wrong::Taken => b"a new name: another job has this one",
            Wrong::Full => b"at most 64 jobs, and this is one more",
            Wrong::Edge => b"NAME before NAME, and nothing else",
            Wrong::First => b"the name of a job in front of `before`",
            Wrong::Second => b"the name of a job after `before`",
            Wrong::Twice => b"each edge once: an earlier line has this one",
        })
    }
}
