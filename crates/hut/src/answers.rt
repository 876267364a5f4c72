//! The called crates' answers as records of numbers.
ghost use Rattle.std.specs.Prelude.{◌≡◌};
ghost use Rattle.hut.specs.Answer.{place_at, nowhere, at_edge, list_place, fault_place, spot_place, verdict_place, build_place, says, brought};
ghost use Rattle.hut.specs.Calls.{check_answer, counts_of, read_answer, read_result, write_answer, build_answer, step_answer};

use crate::{Answer, Place, ReadResult};
use machine::answer::Why;
use merge::{BuildPlace, BuildWhy};
use planfile::{ReadWhy, Shape, WriteWhy};
use refusal::{Refusal, answer_number, answer_place};
use verdict::{Fault, Spot, Verdict};

impl Place {
    pub(crate) fn nowhere() -> Self
        ensures { result ≡ nowhere }
    {
        Place {
            fault: Answer::ABSENT,
            slot: Answer::ABSENT,
            job: Answer::ABSENT,
            pred: Answer::ABSENT,
            switched: Answer::ABSENT,
            edge: Answer::ABSENT,
        }
    }
}

// A place of the list, and of a step.
impl From<joblist::Place> for Place {
    ghost from_gives = { λ p r. r ≡ list_place p };

    fn from(p: joblist::Place) -> Place {
        match p {
            joblist::Place::Nowhere => Place::nowhere(),
            joblist::Place::AtJob(job) => Place {
                job,
                ..Place::nowhere()
            },
            joblist::Place::AtEdge(edge) => Place {
                edge,
                ..Place::nowhere()
            },
        }
    }
}

impl From<Fault> for Place {
    ghost from_gives = { λ f r. r ≡ fault_place f };

    fn from(f: Fault) -> Place {
        match f {
            Fault::Late(slot, job, switched) | Fault::Early(slot, job, switched) => Place {
                slot,
                job,
                switched,
                ..Place::nowhere()
            },
            Fault::Before(slot, job, pred, switched) => Place {
                slot,
                job,
                pred,
                switched,
                ..Place::nowhere()
            },
        }
    }
}

// A place of the check, of reading and of writing.
impl From<Spot> for Place {
    ghost from_gives = { λ s r. r ≡ spot_place s };

    fn from(s: Spot) -> Place {
        match s {
            Spot::InList(p) => p.into(),
            Spot::AtSlot(slot) => Place {
                slot,
                ..Place::nowhere()
            },
            Spot::AtFault(f) => f.into(),
        }
    }
}

// The place of the check's answer.
impl From<Verdict> for Place {
    ghost from_gives = { λ v r. r ≡ verdict_place v };

    fn from(v: Verdict) -> Place {
        match v {
            Ok(()) => Place::nowhere(),
            Err(w) => w.place().into(),
        }
    }
}

// A place of a build: the list's, a slot and a job, a slot, or for 24 the check's number and place.
impl From<BuildPlace> for Place {
    ghost from_gives = { λ p r. r ≡ build_place p };

    fn from(p: BuildPlace) -> Place {
        match p {
            BuildPlace::InList(q) => q.into(),
            BuildPlace::AtJob(slot, job) => Place {
                slot,
                job,
                ..Place::nowhere()
            },
            BuildPlace::AtSlot(slot) => Place {
                slot,
                ..Place::nowhere()
            },
            BuildPlace::Answer(v) => Place {
                fault: answer_number(v),
                ..Place::from(v)
            },
        }
    }
}

impl Answer {
    // A number with its place.
    pub(crate) fn says(number: usize, place: Place) -> Self
        ensures { result ≡ says number place }
    {
        Answer {
            number,
            place,
            order: Answer::ABSENT,
            length: Answer::ABSENT,
        }
    }
}

// The check.
impl From<Verdict> for Answer {
    ghost from_gives = { λ v r. r ≡ check_answer v };

    #[tactic(auto, unfolding(crate::specs::Calls::check_answer))]
    fn from(v: Verdict) -> Answer {
        Answer::says(answer_number(v), v.into())
    }
}

// What reading answers.
impl From<Result<Shape, ReadWhy>> for Answer {
    ghost from_gives = { λ a r. r ≡ read_answer a };

    #[tactic(auto, unfolding(crate::specs::Calls::read_answer))]
    fn from(a: Result<Shape, ReadWhy>) -> Answer {
        Answer::says(answer_number(a), answer_place(a).into())
    }
}

// Reading: the answer and the counts.
impl From<Result<Shape, ReadWhy>> for ReadResult {
    ghost from_gives = { λ a r. r ≡ read_result a };

    #[tactic(auto, unfolding(crate::specs::Calls::read_result))]
    fn from(a: Result<Shape, ReadWhy>) -> ReadResult {
        let counts = a.unwrap_or(Shape {
            jobs: Answer::ABSENT,
            edges: Answer::ABSENT,
            slots: Answer::ABSENT,
        });
        ReadResult {
            answer: a.into(),
            jobs: counts.jobs,
            edges: counts.edges,
            slots: counts.slots,
        }
    }
}

// Writing, with the plan's length where it was written. `write_answer` and `build_answer` are definitions of their own, so that
// this and the next stand side by side.
impl From<Result<usize, WriteWhy>> for Answer {
    ghost from_gives = { λ a r. r ≡ write_answer a };

    #[tactic(auto, unfolding(crate::specs::Calls::write_answer))]
    fn from(written: Result<usize, WriteWhy>) -> Answer {
        Answer {
            length: written.unwrap_or(Answer::ABSENT),
            ..Answer::says(answer_number(written), answer_place(written).into())
        }
    }
}

// Building, with the plan's length where it was built.
impl From<Result<usize, BuildWhy>> for Answer {
    ghost from_gives = { λ a r. r ≡ build_answer a };

    #[tactic(auto, unfolding(crate::specs::Calls::build_answer))]
    fn from(built: Result<usize, BuildWhy>) -> Answer {
        Answer {
            length: built.unwrap_or(Answer::ABSENT),
            ..Answer::says(answer_number(built), answer_place(built).into())
        }
    }
}

// A step, with the job ordered or the idle mark.
impl From<Result<u8, Why>> for Answer {
    ghost from_gives = { λ a r. r ≡ step_answer a };

    #[tactic(auto, unfolding(crate::specs::Calls::step_answer))]
    fn from(ordered: Result<u8, Why>) -> Answer {
        Answer {
            order: ordered.map_or(Answer::ABSENT, usize::from),
            ..Answer::says(answer_number(ordered), answer_place(ordered).into())
        }
    }
}
