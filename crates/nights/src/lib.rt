//! The night on which a plan goes wrong: the execution behind a fault of the check, told slot by slot.
#![tactic(auto)]

use drawing::plan::{Plan, Table};
use page::Page;
use verdict::{Fault, Objection};

pub mod night;
mod told;

use night::Night;
pub use told::{At, budgets};

/// The night behind the fault of a plan, as it opens, and the fault; none where the check names none.
pub fn witness_of(plan: Plan<'_>) -> Option<(Night<'_>, Fault)> {
    let witnessed = witness::witness(plan.list(), plan.table(Table::Low), plan.table(Table::High));
    match witnessed.verdict {
        Err(Objection::Bad(f)) => Some((Night::opened(plan, witnessed.needs), f)),
        _ => None,
    }
}

/// That night, slot by slot; nothing where the check names no fault.
pub fn put_night(page: Page, plan: Plan) -> Page {
    match witness_of(plan) {
        Some((night, f)) => told::put_slots(page, night, f),
        None => page,
    }
}
