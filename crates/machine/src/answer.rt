//! What a step says. A state holds arrays, so it stands beside the answer and not in it.
ghost use Rattle.std.specs.Prelude.{◌≡◌};
ghost use Rattle.joblist.specs.declared.Place.TheVariants.{Nowhere};
ghost use Rattle.machine.specs.Numbers.{number_of, place_of, halts_of};

use joblist::Place;
use refusal::Refusal;

/// Why a step is refused, in the order of the tests.
#[derive(Clone, Copy, Debug, PartialEq, Eq)]
pub enum Why {
    BadState,
    Halted,
    SameTick,
    HalfAway,
    StaleTick,
    TicksLost,
    NoJob,
    PastHigh(u8),
}

/// An order, which is a job's number or the idle mark, as C and `step_of` have it; or why not.
pub type Answer = Result<u8, Why>;

impl Refusal for Why {
    type Place = Place;

    ghost number = { number_of };

    ghost place = { place_of };

    ghost nowhere = { Nowhere };

    fn number(self) -> usize {
        match self {
            Why::BadState => 37,
            Why::Halted => 32,
            Why::SameTick => 30,
            Why::HalfAway => 36,
            Why::StaleTick => 33,
            Why::TicksLost => 31,
            Why::NoJob => 34,
            Why::PastHigh(_) => 35,
        }
    }

    fn place(self) -> Place {
        match self {
            Why::PastHigh(j) => Place::AtJob(usize::from(j)),
            _ => Place::Nowhere,
        }
    }

    fn nowhere() -> Place {
        Place::Nowhere
    }
}

impl Why {
    /// Whether it sets the halted mark.
    pub fn halts(self) -> bool
        ensures { result ≡ halts_of self }
    {
        matches!(self, Why::HalfAway | Why::TicksLost | Why::PastHigh(_))
    }
}
