//! Numbers of columns and places, which never run over: what this crate and those above it count by. They are the library's
//! methods; by these names they are promised, and the edits `below_zero` (of `less`), `higher` (of `lower`), `round_to_zero` (of
//! `plus`) and `same_number` (of `after`) plant a slip in what the programs run.
ghost use Rattle.std.specs.Prelude.{◌≡◌, ◌+◌, ◌-◌, min};

/// The difference; 0 where it would be below 0.
pub fn less(a: usize, b: usize) -> usize
    ensures { result ≡ a - b }
{
    a.saturating_sub(b)
}

/// The lower of two numbers.
pub fn lower(a: usize, b: usize) -> usize
    ensures { result ≡ min a b }
{
    a.min(b)
}

/// The sum; the largest number where it would be over that.
pub fn plus(a: usize, b: usize) -> usize
    ensures { result ≡ min (a + b) 18446744073709551615 }
{
    a.saturating_add(b)
}

/// The next number; the last is its own.
pub fn after(i: usize) -> usize
    ensures { result ≡ min (i + 1) 18446744073709551615 }
{
    i.saturating_add(1)
}
