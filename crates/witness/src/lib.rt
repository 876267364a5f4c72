//! The execution that goes wrong where the check names a fault: how many units each job needs.
#![tactic(auto)]

ghost use Rattle.std.specs.Prelude.{◌≡◌};
ghost use Rattle.basics.specs.Limits.{first_edition};
ghost use Rattle.witness.specs.Needs.{witness_of};

use needs::{Execution, Witness, switch_in};
use verdict::Objection;

pub mod needs;

/// The check of a list and two tables, and the execution behind its fault.
pub fn witness(list: &[u8], lo: &[u8], hi: &[u8]) -> Witness
    ensures { result ≡ witness_of first_edition list.now lo.now hi.now }
{
    let verdict = verdict::check(list, lo, hi);
    let Err(objection) = verdict else {
        return Witness::without_needs(verdict);
    };
    let Objection::Bad(fault) = objection else {
        return Witness::without_needs(verdict);
    };
    let execution = Execution {
        list,
        jobs: joblist::jobs_of(list),
        lo,
        switch: switch_in(fault),
    };
    Witness {
        verdict,
        needs: execution.needs(),
    }
}
