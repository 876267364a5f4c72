//! Bytes and numbers put at a place of a buffer. The buffer and the place stay two arguments, and the next place is handed
//! back: `put_in` and `next_at` say of each call, of one that has no room too, what it did with both.
ghost use Rattle.std.specs.Prelude.{◌≡◌, ◌+◌, leb};
ghost use Rattle.text.specs.Place.{put_in, next_at, NumberPut};

// Whether a buffer has room for k bytes at a place.
pub(crate) fn fits(size: usize, at: usize, k: usize) -> bool
    ensures { result ≡ leb (at + k) size }
{
    at <= size && k <= size - at
}

/// Puts bytes at a place, and hands back the next place.
#[tactic(auto, unfolding(crate::specs::Place::put_in, crate::specs::Place::next_at))]
pub fn put(out: &mut [u8], at: usize, s: &[u8]) -> usize
    ensures { (result ≡ next_at out.old at s.now) × (out.new ≡ put_in out.old at s.now) }
{
    if fits(out.len(), at, s.len()) {
        let end = at + s.len();
        out[at..end].copy_from_slice(s);
        return end;
    }
    at
}

/// Puts the decimal digits of a number, as few as it takes.
pub fn put_number(out: &mut [u8], at: usize, n: usize) -> usize
    ensures { NumberPut out.old at n result out.new }
{
    let mut text = [0u8; 20];
    let k = io::decimal(n as u64, &mut text);
    put(out, at, &text[..k])
}
