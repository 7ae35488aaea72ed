// Sweeping, in place: the new numbers are written into the slots of the waiting list, which are free while nothing waits;
// then what cells and landings hold is renamed; then the rows of the living are moved down.
// `Still` and `Ranked` are conditions: numbering reaches `Ranked` entry by entry, renaming keeps it and packing ends it, so that a struct with both
// as facts, like numbering's `Count` with its one, would be for the renaming alone.
// The loops carry the next number by hand: of rows that the closure of a fold writes, a proof knows nothing afterwards.
ghost use Rattle.std.specs.Prelude.{◌≡◌, ◌+◌, ◌-◌, ◌<◌, ◌≤◌, if◌then◌else◌, nat_eq};
ghost use Rattle.machine.specs.State.{same};
ghost use Rattle.machine.specs.Sweeping.{rank, swept};
ghost use Rattle.rows.specs.Layout.{Tidy, Becomes, count};
ghost use Rattle.rows.specs.Sources.{kinds_of};
ghost use Rattle.rows.specs.View.{raw, view, slot, Has};
ghost use Rattle.rows.specs.Sweeps.{renames, in_row, in_rows, in_kind, in_kinds, moves, packs, packed, HeldLive, Still, Goes, Ranked};

use crate::{Rows, Slot};

impl Rows<'_> {
    // Writes `k`, the number of the living below `e`, into the slot of `e`; tells how many live up to `e`.
    fn number_one(&mut self, e: usize, k: usize) -> usize
        requires still { Still (raw self.old) }
        requires e_lt_given { e < self.old.given }
        requires k_ranks { k ≡ rank (view self.old).forward e }
        requires forward_ranked { Ranked (raw self.old) e }
        ensures goes { Goes (raw self.old) (λ s. s) (raw self.new) }
        ensures ranked { Ranked (raw self.new) (e + 1) }
        ensures is { result ≡ rank (view self.old).forward (e + 1) }
    {
        let at = self.at(e, 2);
        self.words[at] = k as u32;
        if self.lives(e as u32) { k + 1 } else { k }
    }

    // Writes into the slot of each entry how many of the living are below it.
    fn number(&mut self)
        requires { Still (raw self.old) }
        ensures goes { Goes (raw self.old) (λ s. s) (raw self.new) }
        ensures ranked { Ranked (raw self.new) self.new.given }
    {
        let n = self.given;
        let mut k = 0;
        for e in 0..n {
            k = self.number_one(e, k);
        }
    }

    // What the slot `t` holds gets its new number.
    fn rename(&mut self, t: Slot)
        requires still { Still (raw self.old) }
        requires forward_ranked { Ranked (raw self.old) self.old.given }
        requires has { Has self.old t }
        ensures goes { Goes (raw self.old) (renames (λ u. same u (slot t))) (raw self.new) }
        ensures ranked { Ranked (raw self.new) self.new.given }
    {
        if let Some(w) = self.held(t) {
            let n = self.read(w as usize, 2);
            let at = self.place(t);
            self.words[at] = n + 1;
        }
    }

    // What the cells of `e` hold is renamed.
    fn rename_row(&mut self, e: u32)
        requires still { Still (raw self.old) }
        requires forward_ranked { Ranked (raw self.old) self.old.given }
        requires e_lt_given { e < self.old.given }
        ensures goes { Goes (raw self.old) (renames (in_row e self.old.links)) (raw self.new) }
        ensures ranked { Ranked (raw self.new) self.new.given }
    {
        let n = self.links as u32;
        for l in 0..n {
            self.rename(Slot::Cell(e, l));
        }
    }

    // What the cells hold is renamed.
    fn rename_cells(&mut self)
        requires still { Still (raw self.old) }
        requires forward_ranked { Ranked (raw self.old) self.old.given }
        ensures goes { Goes (raw self.old) (renames (in_rows self.old.given self.old.links)) (raw self.new) }
        ensures ranked { Ranked (raw self.new) self.new.given }
    {
        let n = self.given as u32;
        for e in 0..n {
            self.rename_row(e);
        }
    }

    // What the landings of the source kind `k` hold is renamed.
    fn rename_kind(&mut self, k: u32)
        requires still { Still (raw self.old) }
        requires forward_ranked { Ranked (raw self.old) self.old.given }
        requires k_lt_kinds { k < kinds_of self.old.source }
        ensures goes { Goes (raw self.old) (renames (in_kind k (count (raw self.old).shape k))) (raw self.new) }
        ensures ranked { Ranked (raw self.new) self.new.given }
    {
        let n = self.source.kind(k).records;
        for q in 0..n {
            self.rename(Slot::Landing(k, q));
        }
    }

    // What the landings hold is renamed.
    fn rename_landings(&mut self)
        requires still { Still (raw self.old) }
        requires ranked { Ranked (raw self.old) self.old.given }
        ensures { Goes (raw self.old) (renames (in_kinds (raw self.old).shape (kinds_of self.old.source))) (raw self.new) }
    {
        let n = self.source.len() as u32;
        for k in 0..n {
            self.rename_kind(k);
        }
    }

    // Writes entry `e` over entry `k`, which then lives.
    fn move_row(&mut self, e: usize, k: usize)
        requires still { Still (raw self.old) }
        requires e_lt_given { e < self.old.given }
        requires k_le_e { k ≤ e }
        ensures { Goes (raw self.old) (moves e k) (raw self.new) }
    {
        let from = self.at(e, 0);
        let to = self.at(k, 0);
        let n = self.links + 3;
        self.words.copy_within(from..from + n, to);
        self.words[to + 1] = k as u32;
    }

    // Where `e` lives it becomes entry `k`; tells the next number.
    fn pack_one(&mut self, e: usize, k: usize) -> usize
        requires still { Still (raw self.old) }
        requires e_lt_given { e < self.old.given }
        requires k_le_e { k ≤ e }
        ensures goes { Goes (raw self.old) (packs e k) (raw self.new) }
        ensures is { result ≡ (if nat_eq ((view self.old).forward e) e then k + 1 else k) }
    {
        if !self.lives(e as u32) {
            return k;
        }
        self.move_row(e, k);
        k + 1
    }

    // Moves the living down, in their order; tells how many they are.
    fn pack(&mut self) -> usize
        requires { Still (raw self.old) }
        ensures goes { Goes (raw self.old) (packed self.old.given) (raw self.new) }
        ensures is { result ≡ rank (view self.old).forward self.old.given }
    {
        let n = self.given;
        let mut k = 0;
        for e in 0..n {
            k = self.pack_one(e, k);
        }
        k
    }

    // Numbers the living anew in their order, and drops the dead; tells how many.
    pub fn sweep(&mut self) -> usize
        requires tidy { Tidy (raw self.old) }
        requires quiet { self.old.waits ≡ 0 }
        requires live { HeldLive (view self.old) }
        ensures becomes { Becomes (raw self.old) swept (raw self.new) }
        ensures dropped { result ≡ self.old.given - rank (view self.old).forward self.old.given }
    {
        self.number();
        self.rename_cells();
        self.rename_landings();
        let k = self.pack();
        let dropped = self.given - k;
        self.given = k;
        self.front = 0;
        dropped
    }
}
