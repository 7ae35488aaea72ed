// The calls that give entries, with their refusals.
ghost use Rattle.std.specs.Prelude.{◌≡◌, ◌<◌, ◌&&◌, ◌==◌, nat_lt};
ghost use Rattle.std.specs.List.{range_with_len, count_by};
ghost use Rattle.machine.specs.Loaded.{Loaded};
ghost use Rattle.machine.specs.State.{lives};
ghost use Rattle.machine.specs.Sweeping.{rank};
ghost use Rattle.machine.specs.Calls.{land, define, apply, land_fault, define_fault};
ghost use Rattle.machine.specs.Tables.{answered};
ghost use Rattle.rows.specs.Layout.{Tidy, Becomes, Carries};
ghost use Rattle.rows.specs.Sources.{kinds_of};
ghost use Rattle.rows.specs.View.{raw, view};
ghost use Rattle.rows.specs.Calls.{free};

use crate::{Rows, Slot};
use words::faults::Refusal;

impl Rows<'_> {
    // The living, counted among all entries.
    fn count_living(&self) -> usize
        ensures { result ≡ count_by (λ e. lives (view self.now) e) (range_with_len 0 self.now.given) }
    {
        let n = self.given as u32;
        (0..n).filter(|e| self.lives(*e)).count()
    }

    // How many entries live.
    pub fn living(&self) -> u32
        ensures { result ≡ rank (view self.now).forward self.now.given }
    {
        self.count_living() as u32
    }

    // The slot `t`, if a new entry can fill it; none where there is no such slot.
    fn free(&self, t: Option<Slot>) -> Result<Slot, Refusal>
        ensures { result ≡ free (view self.now) t self.now.capacity }
    {
        if self.waits > 0 {
            return Err(Refusal::Waiting);
        }
        let t = t.ok_or(Refusal::NotLiving)?;
        if self.held(t).is_some() {
            return Err(Refusal::Filled);
        }
        if self.given >= self.capacity {
            return Err(Refusal::Full);
        }
        Ok(t)
    }

    // A new entry of the kind `kind` at the landing of record `q` of the source kind `k`.
    pub fn land(&mut self, k: u32, q: u32, kind: u32) -> Result<u32, Refusal>
        requires { Tidy (raw self.old) }
        ensures is { (L : Loaded) → Carries L (raw self.old).shape → result ≡ answered (land_fault L (view self.old) k q) self.old.given }
        ensures after { (L : Loaded) → Carries L (raw self.old).shape → (k < kinds_of self.old.source → L.kind_map k ≡ kind) → Becomes (raw self.old) (apply L (land k q)) (raw self.new) }
    {
        let t = Slot::Landing(k, q);
        let t = self.free(self.has(t).then_some(t))?;
        Ok(self.born(kind, t))
    }

    // Whether `e` lives and has the kind `from`, which the link `l` leaves.
    pub fn leaves(&self, e: u32, l: u32, from: u32) -> bool
        ensures { result ≡ (lives (view self.now) e && (nat_lt l self.now.links && (view self.now).kind e == from)) }
    {
        self.lives_as(e, from) && (l as usize) < self.links
    }

    // A new entry of the kind `to` at the cell of `e` and the link `l`, which leads from the kind `from`.
    pub fn define(&mut self, e: u32, l: u32, from: u32, to: u32) -> Result<u32, Refusal>
        requires { Tidy (raw self.old) }
        ensures is { (L : Loaded) → Carries L (raw self.old).shape → (l < self.old.links → L.from l ≡ from) → result ≡ answered (define_fault L (view self.old) e l) self.old.given }
        ensures after { (L : Loaded) → Carries L (raw self.old).shape → (l < self.old.links → L.from l ≡ from) → (l < self.old.links → L.to l ≡ to) → Becomes (raw self.old) (apply L (define e l)) (raw self.new) }
    {
        let t = self.leaves(e, l, from).then_some(Slot::Cell(e, l));
        let t = self.free(t)?;
        Ok(self.born(to, t))
    }
}
