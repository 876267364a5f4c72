//! What a tick says of the slots since the last one.
ghost use Rattle.std.specs.Prelude.{◌≡◌};
ghost use Rattle.machine.specs.Tick.{tick_of};

#[derive(Clone, Copy, Debug, PartialEq, Eq)]
pub enum Tick {
    Next,
    Same,
    Lost,
    Half,
    Stale,
}

// Half the counter: as far ahead as behind, so nobody knows which way.
const HALF: u16 = 32768;

/// The difference modulo 65536 alone decides.
#[tactic(auto, unfolding(crate::specs::Tick::tick_of, crate::specs::Tick::case_of, crate::specs::Tick::difference, basics::specs::Choice::pick))]
pub fn said(last: u16, tick: u16) -> Tick
    ensures { result ≡ tick_of last tick }
{
    match tick.wrapping_sub(last) {
        0 => Tick::Same,
        1 => Tick::Next,
        2..HALF => Tick::Lost,
        HALF => Tick::Half,
        _ => Tick::Stale,
    }
}
