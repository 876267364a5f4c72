//! A number, and the place of a byte, in text.
ghost use Rattle.std.specs.Prelude.{◌≡◌, ◌<◌, ◌≤◌, length, get_or, eqb, Some};
ghost use Rattle.basics.specs.Find.{lowest};
ghost use Rattle.text.specs.Number.{step, number_in};

// One more digit x of a number, none where x is no digit or the number would be over `most`.
#[tactic(auto, unfolding(crate::specs::Number::step))]
fn more(n: usize, x: u8, most: usize) -> Option<usize>
    ensures { result ≡ step most (Some n) x }
{
    let d = match x {
        b'0'..=b'9' => usize::from(x - b'0'),
        _ => return None,
    };
    let m = n.checked_mul(10)?.checked_add(d)?;
    if m <= most { Some(m) } else { None }
}

/// The number that decimal digits say, one digit or more; none where it is over `most`.
pub fn number(s: &[u8], most: usize) -> Option<usize>
    ensures { result ≡ number_in most s.now }
{
    if s.is_empty() {
        return None;
    }
    let mut n = 0;
    for x in s {
        n = more(n, *x, most)?;
    }
    Some(n)
}

/// The first place from `from` on where the byte x stands; the length where there is none, as `lowest` and the edit
/// `any_lower_byte` have it.
pub fn find(s: &[u8], from: usize, x: u8) -> usize
    ensures { (result ≡ lowest (λ i. eqb (get_or s.now i 0) x) (length s.now) from) × (result ≤ length s.now) × (from ≤ length s.now → from ≤ result) }
{
    if s.len() < from {
        return s.len();
    }
    match s[from..].iter().position(|y| *y == x) {
        Some(i) => from + i,
        None => s.len(),
    }
}
