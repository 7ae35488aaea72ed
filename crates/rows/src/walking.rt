// Walking a path through the filled cells of a table.
ghost use Rattle.std.specs.Prelude.{◌≡◌, []};
ghost use Rattle.machine.specs.Walking.{walk, walk_in};
ghost use Rattle.rows.specs.View.{view, slot};
ghost use Rattle.rows.specs.Walks.{links, ended_at, side_of, shown_side};

use crate::{Rows, Slot};
use words::reading::fields_at;

// How a side of a check goes: it ends at an entry, or only its last step is missing, or more is.
#[derive(Clone, Copy)]
pub enum Side {
    End(u32),
    Gap(Slot),
    Far,
}

impl Rows<'_> {
    // Where the path leads from `e`, if each of its cells is filled.
    #[tactic(auto, using(crate::proofs::Walks::walk_empty, crate::proofs::Walks::first_empty, crate::proofs::Walks::first_filled))]
    pub(crate) fn walk(&self, path: &[u32], e: u32) -> Option<u32>
        ensures { result ≡ ended_at (walk (view self.now).held e (links path.now)) }
    {
        match path {
            [] => Some(e),
            [_, rest @ ..] => self.walk(rest, self.cell(e, fields_at(path, 0))?),
        }
    }

    // The slot `t` as a step of its own.
    fn step(&self, t: Slot) -> Side
        ensures { shown_side result ≡ side_of (walk_in (view self.now).held (slot t) []) }
    {
        match self.held(t) {
            None => Side::Gap(t),
            Some(x) => Side::End(x),
        }
    }

    // The side that walks the path from `e`: all but its last step, and then that one.
    pub(crate) fn side(&self, path: &[u32], e: u32) -> Side
        ensures { shown_side result ≡ side_of (walk (view self.now).held e (links path.now)) }
    {
        match path {
            [] => Side::End(e),
            [front @ .., _] => match self.walk(front, e) {
                None => Side::Far,
                Some(x) => self.step(Slot::Cell(x, fields_at(path, front.len()))),
            },
        }
    }

    // The side that goes through the slot `t` first, and then walks the path.
    pub(crate) fn side_in(&self, t: Slot, path: &[u32]) -> Side
        ensures { shown_side result ≡ side_of (walk_in (view self.now).held (slot t) (links path.now)) }
    {
        match self.held(t) {
            Some(x) => self.side(path, x),
            None if path.is_empty() => Side::Gap(t),
            None => Side::Far,
        }
    }
}
