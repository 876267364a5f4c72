//! The log's answers as records of numbers.
ghost use Rattle.std.specs.Prelude.{◌≡◌};
ghost use Rattle.hut.specs.Log.{absent_span, log_answer, append_answer, found_answer, log_byte};

use crate::{Answer, LogAnswer, LogByte, Place};
use logwalk::{FindWhy, Span};
use planlog::{AppendWhy, Write};
use refusal::{answer_number, answer_place};

// No plan stands anywhere.
fn absent_span() -> Span
    ensures { result ≡ absent_span }
{
    Span {
        start: Answer::ABSENT,
        size: Answer::ABSENT,
    }
}

impl LogAnswer {
    // An answer beside a plan's place in the store.
    fn at(answer: Answer, p: Span) -> Self
        ensures { result ≡ log_answer answer p }
    {
        LogAnswer {
            answer,
            at: p.start,
            bytes: p.size,
        }
    }

    // An append of so many bytes, and where it would put them.
    #[tactic(auto, unfolding(crate::specs::Log::append_answer))]
    pub(crate) fn of_append(a: Result<usize, AppendWhy>, size: usize) -> Self
        ensures { result ≡ append_answer a size }
    {
        LogAnswer::at(
            Answer::says(answer_number(a), answer_place(a).into()),
            a.map_or(absent_span(), |start| Span { start, size }),
        )
    }
}

// A plan looked for: a refusal has no place.
impl From<Result<Span, FindWhy>> for LogAnswer {
    ghost from_gives = { λ f r. r ≡ found_answer f };

    #[tactic(auto, unfolding(crate::specs::Log::found_answer))]
    fn from(f: Result<Span, FindWhy>) -> LogAnswer {
        LogAnswer::at(
            Answer::says(answer_number(f), Place::nowhere()),
            f.unwrap_or(absent_span()),
        )
    }
}

impl LogByte {
    // One byte written; none is a place past the store, which has so many bytes.
    #[tactic(auto, unfolding(crate::specs::Log::log_byte))]
    pub(crate) fn of(size: usize, w: Option<Write>) -> Self
        ensures { result ≡ log_byte size w }
    {
        match w {
            Some(w) => LogByte {
                place: w.place,
                byte: usize::from(w.byte),
            },
            None => LogByte {
                place: size,
                byte: 0,
            },
        }
    }
}
