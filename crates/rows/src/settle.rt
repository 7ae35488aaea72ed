// Merging, and settling the first that waits.
ghost use Rattle.std.specs.Prelude.{◌≡◌, ◌<◌, map, slice_index};
ghost use Rattle.machine.specs.Loaded.{Loaded};
ghost use Rattle.machine.specs.Merging.{merge};
ghost use Rattle.machine.specs.Settling.{rehold, take_over, pull, drain, settled};
ghost use Rattle.rows.specs.Layout.{Tidy, Becomes};
ghost use Rattle.rows.specs.View.{raw, view};
ghost use Rattle.rows.specs.View as place;
ghost use Rattle.rows.specs.Writes.{changed, changed_rows, swapped, over};

use crate::{Rows, Slot};

// Writes `new` in the place of `old`.
fn swap(words: &mut [u32], old: u32, new: u32)
    ensures { words.new ≡ map (swapped old new) words.old }
{
    for w in words.iter_mut() {
        if *w == old {
            *w = new;
        }
    }
}

impl Rows<'_> {
    // Merges the living ends of `a` and `b`.
    pub(crate) fn merge(&mut self, a: u32, b: u32)
        requires tidy { Tidy (raw self.old) }
        requires a_lt_given { a < self.old.given }
        requires b_lt_given { b < self.old.given }
        ensures { Becomes (raw self.old) (merge a b) (raw self.new) }
    {
        let x = self.living_end(a);
        let y = self.living_end(b);
        if x < y {
            self.die(y, x);
        } else if y < x {
            self.die(x, y);
        }
    }

    // In the cells of `e`, the word `new` in the place of `old`.
    fn swap_row(&mut self, e: usize, old: u32, new: u32)
        requires { e < self.old.given }
        ensures { raw self.new ≡ over (raw self.old) (changed (swapped old new) self.old.words.now (place.at self.old e 3) self.old.links) }
    {
        let at = self.at(e, 0) + 3;
        let links = self.links;
        swap(&mut self.words[at..at + links], old, new);
    }

    // The same in all cells.
    fn swap_rows(&mut self, old: u32, new: u32)
        ensures { raw self.new ≡ over (raw self.old) (changed_rows (swapped old new) self.old.words.now self.old.base self.old.links self.old.given) }
    {
        let n = self.given;
        for e in 0..n {
            self.swap_row(e, old, new);
        }
    }

    // In all slots, `u` in the place of `v`.
    fn replace(&mut self, v: u32, u: u32)
        requires tidy { Tidy (raw self.old) }
        requires v_lt_given { v < self.old.given }
        requires u_lt_given { u < self.old.given }
        ensures { Becomes (raw self.old) (rehold v u) (raw self.new) }
    {
        self.swap_rows(v + 1, u + 1);
        let at = self.lands;
        let n = self.records;
        swap(&mut self.words[at..at + n], v + 1, u + 1);
    }

    // The cell of `u` at `l` takes `w`; where it is filled, its content and `w` are merged.
    fn take_over(&mut self, u: u32, l: u32, w: u32)
        requires tidy { Tidy (raw self.old) }
        requires u_lt_given { u < self.old.given }
        requires l_lt_links { l < self.old.links }
        requires w_lt_given { w < self.old.given }
        ensures { Becomes (raw self.old) (take_over u l w) (raw self.new) }
    {
        match self.cell(u, l) {
            None => self.fill(Slot::Cell(u, l), w),
            Some(d) => self.merge(d, w),
        }
    }

    // What the dead entry `v` holds at `l` goes to its living end.
    fn pull(&mut self, v: u32, l: u32)
        requires tidy { Tidy (raw self.old) }
        requires v_lt_given { v < self.old.given }
        requires l_lt_links { l < self.old.links }
        ensures { Becomes (raw self.old) (pull v l) (raw self.new) }
    {
        if let Some(content) = self.cell(v, l) {
            let u = self.living_end(v);
            let w = self.living_end(content);
            self.empty(Slot::Cell(v, l));
            self.take_over(u, l, w);
        }
    }

    // What the dead entry `v` holds goes to its living end, link by link.
    fn drain(&mut self, v: u32)
        requires tidy { Tidy (raw self.old) }
        requires v_lt_given { v < self.old.given }
        ensures { Becomes (raw self.old) (drain v self.old.links) (raw self.new) }
    {
        let n = self.links as u32;
        for l in 0..n {
            self.pull(v, l);
        }
    }

    // Settles the first that waits.
    pub fn settle(&mut self)
        requires tidy { Tidy (raw self.old) }
        requires waits_nonzero { 0 < self.old.waits }
        requires first_known { slice_index (view self.old).waiting 0 < self.old.given }
        ensures { (L : Loaded) → L.links ≡ self.old.links → Becomes (raw self.old) (settled L) (raw self.new) }
    {
        let v = self.first();
        let u = self.living_end(v);
        self.replace(v, u);
        self.drain(v);
        self.pop();
    }
}
