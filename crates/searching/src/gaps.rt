// The searches for an empty landing and for an empty cell.
ghost use Rattle.std.specs.Prelude.{◌≡◌, ◌<◌, ◌==◌};
ghost use Rattle.machine.specs.Shift as shift;
ghost use Rattle.machine.specs.Shift.{lowest, only_if};
ghost use Rattle.searching.specs.Always.{Always};
ghost use Rattle.searching.specs.Searches.{landing_at, cell_at};
ghost use Rattle.searching.specs.Tasks.{shown_task};

use crate::Task;
use crate::search::{Search, lowest};

impl Search<'_> {
    // The landing of the record `q` of the source kind `k`, if it is empty.
    fn landing_at(&self, k: u32, q: u32) -> Option<Task>
        ensures { Always self.now (λ L s. shown_task result ≡ landing_at L s k q) }
    {
        let empty = self.rows.landing(k, q).is_none();
        empty.then_some(Task::Land(k, q))
    }

    // The first record of the source kind `k` whose landing is empty.
    fn landing(&self, k: u32) -> Option<Task>
        ensures { Always self.now (λ L s. k < L.source_kinds → shown_task result ≡ lowest (L.count k) (landing_at L s k)) }
    {
        lowest(self.rows.source.kind(k).records, |q| self.landing_at(k, q))
    }

    // The first empty landing.
    pub(crate) fn landings(&self) -> Option<Task>
        ensures { Always self.now (λ L s. shown_task result ≡ shift.land_next L s) }
    {
        lowest(self.rows.source.len() as u32, |k| self.landing(k))
    }

    // The cell of the entry `e` at the link `l`, if the link leaves its kind and the cell is empty.
    fn cell_at(&self, e: u32, l: u32) -> Option<Task>
        requires { e < self.now.rows.now.given }
        ensures { Always self.now (λ L s. l < L.links → shown_task result ≡ cell_at L s e l) }
    {
        let (from, _) = self.rows.link_ends(&self.load.found, l);
        let empty = self.rows.kind(e) == from && self.rows.cell(e, l).is_none();
        empty.then_some(Task::Define(e, l))
    }

    // The first empty cell of `e`, if `e` lives.
    fn cell(&self, e: u32) -> Option<Task>
        ensures { Always self.now (λ L s. e < s.given → shown_task result ≡ only_if (s.forward e == e) (lowest L.links (cell_at L s e))) }
    {
        if !self.rows.lives(e) {
            return None;
        }
        lowest(self.rows.links as u32, |l| self.cell_at(e, l))
    }

    // The first empty cell.
    pub(crate) fn cells(&self) -> Option<Task>
        ensures { Always self.now (λ L s. shown_task result ≡ shift.define_next L s) }
    {
        lowest(self.rows.given as u32, |e| self.cell(e))
    }
}
