//! What bench/run times beside the calls of hut, for C to call; no firmware needs it.
#![tactic(auto)]

ghost use Rattle.std.specs.Prelude.{◌≡◌};
ghost use Rattle.verdict.specs.Count.{entries_in};

use verdict::count::entries_before;

/// How many entries of a job stand in a table before a slot.
#[unsafe(no_mangle)]
pub extern "C" fn timed_entries_before(table: &[u8], job: usize, slot: usize) -> usize
    ensures { result ≡ entries_in table.now job slot }
{
    entries_before(table, job, slot)
}
