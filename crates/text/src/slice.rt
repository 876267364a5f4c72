//! Bytes of a slice, at any place. They are the library's own methods; by these names they are promised, and the edits `last_byte`
//! (of `byte_at`), `end_left_out` (of `part`), `longer_is_same` and `with_itself` (of `same`) plant a slip in what the programs run.
ghost use Rattle.std.specs.Prelude.{◌≡◌, get_or};
ghost use Rattle.text.specs.Slice.{between, same_bytes};

/// The byte at a place; 0 past the end.
pub fn byte_at(s: &[u8], i: usize) -> u8
    ensures { result ≡ get_or s.now i 0 }
{
    s.get(i).copied().unwrap_or(0)
}

/// The bytes from a to e; none where that is no part of s.
#[tactic(auto, unfolding(crate::specs::Slice::between))]
pub fn part(s: &[u8], a: usize, e: usize) -> &[u8]
    ensures { result.now ≡ between s.now a e }
{
    s.get(a..e).unwrap_or(&[])
}

/// Whether two slices have the same bytes.
#[tactic(auto, unfolding(crate::specs::Slice::same_bytes))]
pub fn same(s: &[u8], t: &[u8]) -> bool
    ensures { result ≡ same_bytes s.now t.now }
{
    s == t
}
