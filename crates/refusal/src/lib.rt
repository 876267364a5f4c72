//! What is refused: its number and its place, and those of an answer.
#![tactic(auto)]

ghost use Rattle.std.specs.Prelude.{◌≡◌, ℕ};
ghost use Rattle.refusal.specs.Answer.{number_with, place_with};

/// Why something is refused.
pub trait Refusal: Copy {
    type Place;

    ghost number: { Self → ℕ };

    ghost place: { Self → Self.Place };

    ghost nowhere: { Self.Place };

    /// The paper's number of a refusal.
    fn number(self) -> usize
        ensures { result ≡ number self };

    /// The paper's place of a refusal.
    fn place(self) -> Self::Place
        ensures { result ≡ place self };

    /// The place of an answer that refuses nothing.
    fn nowhere() -> Self::Place
        ensures { result ≡ nowhere };
}

/// The number of an answer: 0 for yes.
pub fn answer_number<T: Copy, W: Refusal>(answer: Result<T, W>) -> usize
    ensures { result ≡ number_with W.number answer }
{
    match answer {
        Ok(_) => 0,
        Err(w) => w.number(),
    }
}

/// The place of an answer.
pub fn answer_place<T: Copy, W: Refusal>(answer: Result<T, W>) -> W::Place
    ensures { result ≡ place_with W.nowhere W.place answer }
{
    match answer {
        Ok(_) => W::nowhere(),
        Err(w) => w.place(),
    }
}
