// What a step of a shift does next.
#![tactic(auto)]

ghost use Rattle.std.specs.Prelude.{◌≡◌};
ghost use Rattle.bounded.specs.Listed.{listed};
ghost use Rattle.machine.specs.Loaded.{Loaded};
ghost use Rattle.machine.specs.Shift as shift;
ghost use Rattle.rows.specs.View.{raw, view};
ghost use Rattle.rows.specs.Standing.{Holds, Holding};
ghost use Rattle.searching.specs.Tasks.{shown_task};

use crate::search::Search;
use rows::Rows;
use rows::problem::Load;

mod checks;
mod gaps;
mod search;

// What a step does: settle, check a source link at a record or a rule at an entry, land a record of a source kind, define an entry's cell, or sweep.
#[derive(Clone, Copy)]
pub enum Task {
    Settle,
    Link(u32, u32),
    Rule(u32, u32),
    Land(u32, u32),
    Define(u32, u32),
    Sweep,
}

// The first of these that there is: to settle; a check of a source link that acts, and of a rule; an empty landing, and an empty cell.
#[tactic(auto, unfolding(rows::specs::Layout::waiting_of))]
pub fn next(rows: &Rows, load: &Load) -> Option<Task>
    requires { Holding (raw rows.now) load.now.found (listed load.now.leads) }
    ensures { (L : Loaded) → Holds L (raw rows.now) load.now.found (listed load.now.leads) → shown_task result ≡ shift.next L (view rows.now) }
{
    if rows.waits > 0 {
        return Some(Task::Settle);
    }
    let search = Search { rows, load };
    // Not `or_else`, here or in a method of `Search`: the check tells nothing of what its closure answers where that captures `search`,
    // by reference or by `move`; a clause on the closure changes nothing.
    if let Some(task) = search.links() {
        return Some(task);
    }
    if let Some(task) = search.rules() {
        return Some(task);
    }
    if let Some(task) = search.landings() {
        return Some(task);
    }
    search.cells()
}
