//! Bytes as hex text, two digits a byte, in lower case; and back. The buffer and the place are as in `put`.
ghost use Rattle.std.specs.Prelude.{◌≡◌, true, ◌+◌, ◌*◌, ◌/◌, ◌<◌, ◌≤◌, length};
ghost use Rattle.basics.specs.Put.{put as placed};
ghost use Rattle.io.specs.Digits.{hex_digit_ascii as glyph_of};
ghost use Rattle.text.specs.Place.{put_in, next_at};
ghost use Rattle.text.specs.Hex.{hex_of, worth, is_hex, bytes_of, unhexed, after_unhex};

use crate::place::fits;

fn glyph(d: u8) -> u8
    requires { d < 16 }
    ensures { result ≡ glyph_of d }
{
    if d < 10 { b'0' + d } else { b'a' - 10 + d }
}

// The digits of s, where they fit.
fn spell(out: &mut [u8], at: usize, s: &[u8])
    requires { at + 2 * length s.now ≤ length out.old }
    ensures { out.new ≡ placed out.old at (hex_of s.now (length s.now)) }
{
    for (i, x) in s.iter().enumerate() {
        out[at + 2 * i] = glyph(x / 16);
        out[at + 2 * i + 1] = glyph(x % 16);
    }
}

/// Puts the hex text of bytes at a place, and hands back the next place.
#[tactic(auto, using(crate::proofs::Digits::hex_length), unfolding(crate::specs::Place::put_in, crate::specs::Place::next_at))]
pub fn put_hex(out: &mut [u8], at: usize, s: &[u8]) -> usize
    ensures { (result ≡ next_at out.old at (hex_of s.now (length s.now))) × (out.new ≡ put_in out.old at (hex_of s.now (length s.now))) }
{
    let k = 2 * s.len();
    if fits(out.len(), at, k) {
        spell(out, at, s);
        return at + k;
    }
    at
}

// What a digit is worth; 16 for a byte that is none: a number and no `Option`, as `worth` has it, on which `bytes_of` stands.
#[tactic(auto, unfolding(crate::specs::Hex::worth))]
fn worth_of(x: u8) -> u8
    ensures { result ≡ worth x }
{
    match x {
        b'0'..=b'9' => x - b'0',
        b'a'..=b'f' => x - b'a' + 10,
        _ => 16,
    }
}

// Whether bytes are pairs of digits.
fn is_hex(s: &[u8]) -> bool
    ensures { result ≡ is_hex s.now }
{
    s.len() % 2 == 0 && s.iter().all(|x| worth_of(*x) < 16)
}

// The bytes that pairs of digits say, where they fit.
fn unspell(out: &mut [u8], at: usize, s: &[u8])
    requires { (is_hex s.now ≡ true) × (at + length s.now / 2 ≤ length out.old) }
    ensures { out.new ≡ placed out.old at (bytes_of s.now (length s.now / 2)) }
{
    for (i, pair) in s.chunks_exact(2).enumerate() {
        out[at + i] = 16 * worth_of(pair[0]) + worth_of(pair[1]);
    }
}

/// Puts the bytes that hex text says at a place, and hands back the next place; none where it is no hex text or does not fit.
#[tactic(auto, unfolding(crate::specs::Hex::unhexes, crate::specs::Hex::unhexed, crate::specs::Hex::after_unhex))]
pub fn put_unhex(out: &mut [u8], at: usize, s: &[u8]) -> Option<usize>
    ensures { (result ≡ unhexed out.old at s.now) × (out.new ≡ after_unhex out.old at s.now) }
{
    let k = s.len() / 2;
    if fits(out.len(), at, k) && is_hex(s) {
        unspell(out, at, s);
        return Some(at + k);
    }
    None
}
