// The numbering of finish, in the rows of a table: the entries are met in the machine's sequence, which is written into the slots of the
// waiting list, and the number of an entry within its kind into the place of its forward.
#![tactic(auto)]

ghost use Rattle.std.specs.Prelude.{◌≡◌, ℕ, ◌+◌, ◌<◌, List, [], ◌∷◌, ◌++◌, length};
ghost use Rattle.machine.specs.Loaded.{Loaded};
ghost use Rattle.machine.specs.Sequence.{met_in, of_kind, of_cells, sequence};
ghost use Rattle.rows.specs.Layout.{Raw, Carries, Becomes, count, shown};
ghost use Rattle.rows.specs.View.{raw, view, slot};
ghost use Rattle.numbering.specs.Listed.{Listed};
ghost use Rattle.numbering.specs.Marked.{Countable, Ready, Marked, Numbered, Fresh, Counting, Next, visited, of_kinds, of_rows, Marks, Restored, Restoring};

use rows::{Rows, Slot};

// Above every entry: a forward from here on is the number of an entry that was met.
pub const MARK: u32 = 65536;

// How many entries were met, and how many of each kind: a count for every kind that there may be, so no list of a length.
#[derive(Clone, Copy)]
pub struct Numbering {
    pub met: usize,
    pub counts: [u32; 32],
}

// A table whose entries are being met.
#[derive(Drop)]
struct Count<'a, 'b> {
    rows: &'a mut Rows<'b>,
    numbering: Numbering,
    ghost counting: { Counting (raw rows.now) numbering },
}

// Meets `e` for the first time: it gets the next number of its kind.
fn mark(rows: &mut Rows, numbering: &mut Numbering, e: u32)
    requires { Next (raw rows.old) numbering.old e }
    ensures { (a : Raw) (xs : List ℕ) → Numbered a (raw rows.old) xs numbering.old.met numbering.old.counts → Fresh a xs e →
        Numbered a (raw rows.new) (xs ++ e ∷ []) numbering.new.met numbering.new.counts }
{
    let kind = rows.kind(e) as usize;
    let number = numbering.counts[kind];
    let slot = rows.at(numbering.met, 2);
    let at = rows.at(e as usize, 1);
    rows.words[slot] = e;
    rows.words[at] = MARK + number;
    numbering.counts[kind] = number + 1;
    numbering.met += 1;
}

impl Count<'_, '_> {
    ghost use Rattle.numbering.specs.Count.{seen, Meets};

    // Meets what the slot `t` holds.
    fn meet(&mut self, t: Slot)
        ensures { Meets (λ a xs. met_in ((shown a).held (slot t)) xs) (seen self.old) (seen self.new) }
    {
        let Some(e) = self.rows.held(t) else {
            return;
        };
        if self.rows.read(e as usize, 1) < MARK {
            mark(self.rows, &mut self.numbering, e);
        }
    }

    // Meets what the cells of `e` hold, by link.
    fn meet_cells(&mut self, e: u32)
        ensures { Meets (λ a xs. of_cells (shown a) e a.shape.links xs) (seen self.old) (seen self.new) }
    {
        let n = self.rows.links as u32;
        for l in 0..n {
            self.meet(Slot::Cell(e, l));
        }
    }

    // Meets what the landings of the source kind `k` hold, by record.
    fn meet_kind(&mut self, k: u32)
        requires { k < (raw self.old.rows.now).shape.kinds }
        ensures { Meets (λ a xs. of_kind (shown a) k (count a.shape k) xs) (seen self.old) (seen self.new) }
    {
        let rows = &*self.rows;
        let n = rows.source.kind(k).records;
        for q in 0..n {
            self.meet(Slot::Landing(k, q));
        }
    }

    // Meets what the landings hold, by source kind.
    fn meet_landings(&mut self)
        ensures { Meets (λ a xs. of_kinds a a.shape.kinds xs) (seen self.old) (seen self.new) }
    {
        let rows = &*self.rows;
        let n = rows.source.len() as u32;
        for k in 0..n {
            self.meet_kind(k);
        }
    }

    // Meets what the cells of the entry that was met as number `i` hold.
    fn visit(&mut self, i: usize)
        requires { i < self.old.numbering.met }
        ensures { Meets (λ a xs. visited a i xs) (seen self.old) (seen self.new) }
    {
        let e = self.rows.read(i, 2);
        self.meet_cells(e);
    }

    // Meets, for each entry that was met, what its cells hold.
    fn visit_all(&mut self)
        ensures { Meets (λ a xs. of_rows a a.given xs) (seen self.old) (seen self.new) }
    {
        // No `for`: visits meet more, so the end moves on the way.
        let mut i = 0;
        while i < self.numbering.met {
            self.visit(i);
            i += 1;
        }
    }
}

// Numbers the entries of a complete table in its words.
pub fn number(rows: &mut Rows) -> Numbering
    requires { Countable (raw rows.old) }
    ensures marked { (L : Loaded) → Carries L (raw rows.old).shape → Numbered (raw rows.old) (raw rows.new) (sequence L (view rows.old)) result.met result.counts }
    ensures listed { (L : Loaded) → Ready L (raw rows.old) → Listed L (view rows.old) (raw rows.new) result.met result.counts }
{
    let mut count = Count {
        rows,
        numbering: Numbering {
            met: 0,
            counts: [0; 32],
        },
    };
    count.meet_landings();
    count.visit_all();
    count.numbering
}

// The forward of the entry that was met as number `i` is that entry again.
fn restore_one(rows: &mut Rows, i: usize)
    requires { Restoring (raw rows.old) i }
    ensures { (a : Raw) (xs : List ℕ) → i < length xs → Restored a (raw rows.old) xs i → Restored a (raw rows.new) xs (i + 1) }
{
    let e = rows.read(i, 2);
    let at = rows.at(e as usize, 1);
    rows.words[at] = e;
}

// Takes the numbering back.
pub fn restore(rows: &mut Rows, met: usize)
    requires { Marks (raw rows.old) met }
    ensures { (a : Raw) (xs : List ℕ) → Marked a (raw rows.old) xs → met ≡ length xs → Becomes a (λ s. s) (raw rows.new) }
{
    for i in 0..met {
        restore_one(rows, i);
    }
}
