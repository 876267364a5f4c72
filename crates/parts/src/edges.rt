//! The edges of a plan that holds as many as it counts, each from a job that there is room for.
ghost use Rattle.std.specs.Prelude.{ℕ, ◌*◌, ◌<◌, ◌≤◌, slice_index};
ghost use Rattle.basics.specs.Limits.{first_edition};

use crate::plan::ENDS;

/// The first m edges, as pairs of ends.
#[derive(Clone, Copy)]
pub struct Edges<'a> {
    pub ends: &'a [u8; ENDS],
    pub m: usize,
    pub ghost few: { m ≤ first_edition.edges },
    pub ghost from_jobs: { (e : ℕ) → e < m → slice_index ends.now (2 * e) < first_edition.jobs },
}
