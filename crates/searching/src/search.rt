// A search by number, lowest first, in what was loaded.
ghost use Rattle.std.specs.Prelude.{◌≡◌, ℕ, ◌<◌, Option};
ghost use Rattle.bounded.specs.Listed.{listed};
ghost use Rattle.machine.specs.Calls.{Op};
ghost use Rattle.machine.specs.Shift.{lowest};
ghost use Rattle.rows.specs.View.{raw};
ghost use Rattle.rows.specs.Standing.{Holding};
ghost use Rattle.searching.specs.Tasks.{shown_task};

use crate::Task;
use rows::Rows;
use rows::problem::Load;

// The rows, and the load that they hold.
#[derive(Clone, Copy)]
pub(crate) struct Search<'a> {
    pub(crate) rows: &'a Rows<'a>,
    pub(crate) load: &'a Load,
    ghost holding: { ∥ Holding (raw rows.now) load.now.found (listed load.now.leads) ∥₁ },
}

// What is to be done at the lowest number below `n` where anything is.
pub(crate) fn lowest<F: Fn(u32) -> Option<Task>>(n: u32, at: F) -> Option<Task>
    requires { (i : ℕ) → i < n → F.pre at i }
    ensures { (f : ℕ → Option Op) → ((i : ℕ) (r : Option Task) → i < n → F.post at i r → shown_task r ≡ f i) → shown_task result ≡ lowest n f }
{
    (0..n).find_map(at)
}
