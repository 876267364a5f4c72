//! The fields of a state, and what each can hold.
ghost use Rattle.std.specs.Prelude.{◌≡◌, IfSome};
ghost use Rattle.poke.specs.Field.{name_of, kind_of};

use joblist::{MOST_EDGES, MOST_JOBS, MOST_SLOTS};

/// Words, bytes, then what has a place for each job, edge and slot.
#[derive(Clone, Copy, PartialEq, Eq, Debug)]
pub enum Field {
    Slot,
    Tick,
    Length,
    Jobs,
    Edges,
    Ordered,
    High,
    Halted,
    Units,
    Arrival,
    Deadline,
    Clo,
    Chi,
    Done,
    Cut,
    Level,
    From,
    To,
    Lo,
    Hi,
}

/// How many places a field has, and the largest value of one.
#[derive(Clone, Copy, PartialEq, Eq, Debug)]
pub struct Kind {
    pub places: usize,
    pub most: usize,
}

impl Kind {
    fn words(places: usize) -> Self
        ensures { result ≡ record { places = places; most = 65535 } }
    {
        Kind {
            places,
            most: 65535,
        }
    }

    fn bytes(places: usize) -> Self
        ensures { result ≡ record { places = places; most = 255 } }
    {
        Kind { places, most: 255 }
    }
}

impl Field {
    /// The field of this name, as a line has it.
    pub fn named(word: &[u8]) -> Option<Self>
        ensures found { IfSome result (λ f. word.now ≡ name_of f) }
        ensures known { (f : Field) → word.now ≡ name_of f → result ≡ Some f }
    {
        match word {
            b"slot" => Some(Field::Slot),
            b"tick" => Some(Field::Tick),
            b"l" => Some(Field::Length),
            b"n" => Some(Field::Jobs),
            b"m" => Some(Field::Edges),
            b"ordered" => Some(Field::Ordered),
            b"high" => Some(Field::High),
            b"halted" => Some(Field::Halted),
            b"units" => Some(Field::Units),
            b"arrival" => Some(Field::Arrival),
            b"deadline" => Some(Field::Deadline),
            b"clo" => Some(Field::Clo),
            b"chi" => Some(Field::Chi),
            b"done" => Some(Field::Done),
            b"cut" => Some(Field::Cut),
            b"level" => Some(Field::Level),
            b"from" => Some(Field::From),
            b"to" => Some(Field::To),
            b"lo" => Some(Field::Lo),
            b"hi" => Some(Field::Hi),
            _ => None,
        }
    }

    /// Its places and its values.
    pub fn kind(self) -> Kind
        ensures { result ≡ kind_of self }
    {
        match self {
            Field::Slot | Field::Tick | Field::Length | Field::Jobs | Field::Edges => Kind::words(
                1,
            ),
            Field::Ordered | Field::High | Field::Halted => Kind::bytes(1),
            Field::Units | Field::Arrival | Field::Deadline | Field::Clo | Field::Chi =>
                Kind::words(MOST_JOBS),
            Field::Done | Field::Cut | Field::Level => Kind::bytes(MOST_JOBS),
            Field::From | Field::To => Kind::bytes(MOST_EDGES),
            Field::Lo | Field::Hi => Kind::bytes(MOST_SLOTS),
        }
    }
}
