//! A mistake in a text of tables: what is wrong, and what was expected there.
use jobtext::Expected;
use page::Page;

/// What is wrong with a line, some with a number: the last slot or job that there is, or the slot that is meant.
#[derive(Clone, Copy, Debug, PartialEq, Eq)]
pub enum Wrong {
    Neither,
    Again,
    Loose,
    Backwards,
    Past(usize),
    Twice(usize),
    Name,
    Number(usize),
    NoLow,
    NoHigh,
    LeftOut(usize),
}

pub type Mistake = jobtext::Mistake<Wrong>;

impl Wrong {
    // What is expected; some of it is followed by the number.
    fn expected(self) -> &'static [u8] {
        match self {
            Wrong::Neither => b"LO, HI, or slots and a job, as in 4-6 gate, and nothing else",
            Wrong::Again => b"each table once: an earlier line begins this one",
            Wrong::Loose => b"LO or HI before the first slots",
            Wrong::Backwards => b"the lower slot first, as in 4-6",
            Wrong::Past(_) => b"slots of the frame, 0 to",
            Wrong::Twice(_) => b"each slot once: an earlier line of this table has slot",
            Wrong::Name => b"the name of a job, or idle, after the slots",
            Wrong::Number(_) => b"the number of a job after `job`, 0 to",
            Wrong::NoLow => b"LO and its slots, and the text has ended",
            Wrong::NoHigh => b"HI and its slots, and the text has ended",
            Wrong::LeftOut(_) => b"every slot of the frame in this table: no line has slot",
        }
    }

    fn number(self) -> Option<usize> {
        match self {
            Wrong::Past(n) | Wrong::Twice(n) | Wrong::Number(n) | Wrong::LeftOut(n) => Some(n),
            _ => None,
        }
    }
}

impl Expected for Wrong {
    fn put_expected(&self, page: Page) -> Page {
        let expected = page.put(self.expected());
        match self.number() {
            Some(n) => expected.blank(1).number(n),
            None => expected,
        }
    }
}
