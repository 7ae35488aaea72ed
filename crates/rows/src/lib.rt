// A table in lent work words, as rows of words.
#![tactic(auto)]

ghost use Rattle.std.specs.Prelude.{◌≡◌, slice_index};
ghost use Rattle.rows.specs.Layout.{Fits};
ghost use Rattle.rows.specs.Sources.{kinds_of, counts_of, starts_of};

use bounded::Bounded;

pub mod calls;
pub mod checking;
pub mod paths;
pub mod problem;
pub mod settle;
pub mod sweep;
pub mod walking;

// A kind of the source: how many records it has, and the place of its first landing.
#[derive(Clone, Copy)]
pub struct SourceKind {
    pub records: u32,
    pub start: usize,
}

// The kinds of the source.
#[derive(Clone, Copy)]
pub struct Source {
    pub kinds: Bounded<SourceKind, 32>,
}

impl Source {
    // How many kinds there are.
    pub fn len(&self) -> usize
        ensures { result ≡ kinds_of self.now }
    {
        self.kinds.len()
    }

    // The kind `k`; one of no records where there is no such kind. No `Option`: by the laws of registers a number of no kind counts
    // no records, so that who compares a record's number with the count needs no test of the kind.
    pub fn kind(&self, k: u32) -> SourceKind
        ensures records { result.records ≡ slice_index (counts_of self.now) k }
        ensures start { result.start ≡ slice_index (starts_of self.now) k }
    {
        let none = SourceKind {
            records: 0,
            start: 0,
        };
        self.kinds.get(k as usize).unwrap_or(none)
    }
}

// A cell of an entry and a link, or a landing of a source kind and a record.
#[derive(Clone, Copy)]
pub enum Slot {
    Cell(u32, u32),
    Landing(u32, u32),
}

// The work words, where their parts begin, how many entries were given, and which slots the waiting list has.
// The numbers fit the words in every value. That the table is tidy is a condition and no field: a death, a sweep and a numbering break it between two writes.
// So is that a number names a given entry, or a slot one that has a word, or that something waits: calls make it true and untrue.
#[derive(Drop)]
pub struct Rows<'a> {
    pub words: &'a mut [u32],
    pub source: Source,
    pub lands: usize,
    pub records: usize,
    pub base: usize,
    pub links: usize,
    pub capacity: usize,
    pub given: usize,
    pub front: usize,
    pub waits: usize,
    pub ghost fits: { Fits (record {
      ws = words.now;
      shape = record { kinds = kinds_of source; counts = counts_of source; starts = starts_of source; lands = lands; records = records; base = base; links = links; capacity = capacity };
      given = given;
      front = front;
      waits = waits;
    }) },
}

impl Rows<'_> {
    ghost use Rattle.std.specs.Prelude.{◌+◌, ◌<◌, length, Some, None};
    ghost use Rattle.machine.specs.State.{cell, landing, lives, hold, born};
    ghost use Rattle.machine.specs.Merging.{end, die};
    ghost use Rattle.machine.specs.Settling.{pop};
    ghost use Rattle.rows.specs.Layout.{Tidy, Becomes, spot};
    ghost use Rattle.rows.specs.View.{raw, view, slot, has, Has, row};
    ghost use Rattle.rows.specs.View as place;
    ghost use Rattle.rows.specs.Writes.{added};

    // The place of word `j` of entry `e`.
    pub fn at(&self, e: usize, j: usize) -> usize
        requires e_lt_capacity { e < self.now.capacity }
        requires j_bound { j < self.now.links + 3 }
        ensures is { result ≡ place.at self.now e j }
        ensures fits { result < length self.now.words.now }
    {
        self.base + e * (self.links + 3) + j
    }

    // Word `j` of entry `e`.
    pub fn read(&self, e: usize, j: usize) -> u32
        requires e_lt_capacity { e < self.now.capacity }
        requires j_bound { j < self.now.links + 3 }
        ensures { result ≡ row self.now e j }
    {
        self.words[self.at(e, j)]
    }

    // Whether the slot `t` has a word.
    pub fn has(&self, t: Slot) -> bool
        ensures { result ≡ has self.now t }
    {
        match t {
            Slot::Cell(e, l) => (e as usize) < self.given && (l as usize) < self.links,
            Slot::Landing(k, q) => q < self.source.kind(k).records,
        }
    }

    // The place of the word of the slot `t`.
    fn place(&self, t: Slot) -> usize
        requires { Has self.now t }
        ensures is { result ≡ spot (raw self.now).shape (slot t) }
        ensures fits { result < length self.now.words.now }
    {
        match t {
            Slot::Cell(e, l) => self.at(e as usize, 3 + l as usize),
            Slot::Landing(k, q) => self.source.kind(k).start + q as usize,
        }
    }

    // What the slot `t` holds.
    #[tactic(auto, using(crate::proofs::Shown::held_out, crate::proofs::Shown::held_none, crate::proofs::Shown::held_some))]
    pub fn held(&self, t: Slot) -> Option<u32>
        ensures { result ≡ (view self.now).held (slot t) }
    {
        if !self.has(t) {
            return None;
        }
        self.words[self.place(t)].checked_sub(1)
    }

    // The cell of entry `e` at link `l`.
    pub fn cell(&self, e: u32, l: u32) -> Option<u32>
        ensures { result ≡ (view self.now).held (cell e l) }
    {
        self.held(Slot::Cell(e, l))
    }

    // The landing of record `q` of the source kind `k`.
    pub fn landing(&self, k: u32, q: u32) -> Option<u32>
        ensures { result ≡ (view self.now).held (landing k q) }
    {
        self.held(Slot::Landing(k, q))
    }

    // Whether `e` is a living entry.
    pub fn lives(&self, e: u32) -> bool
        ensures { result ≡ lives (view self.now) e }
    {
        (e as usize) < self.given && self.read(e as usize, 1) == e
    }

    // The kind of `e`.
    pub fn kind(&self, e: u32) -> u32
        requires { e < self.now.given }
        ensures { result ≡ (view self.now).kind e }
    {
        self.read(e as usize, 0)
    }

    // The forward of `e`.
    pub(crate) fn forward(&self, e: u32) -> u32
        requires { e < self.now.given }
        ensures { result ≡ (view self.now).forward e }
    {
        self.read(e as usize, 1)
    }

    // The entry that `e` has come to: along forwards to one that is its own.
    pub(crate) fn living_end(&self, e: u32) -> u32
        requires tidy { Tidy (raw self.now) }
        requires e_lt_given { e < self.now.given }
        ensures { result ≡ end (view self.now) e }
    {
        let mut x = e;
        let mut f = self.forward(x);
        while f != x {
            x = f;
            f = self.forward(x);
        }
        x
    }

    // Writes the entry `v` into the slot `t`.
    pub(crate) fn fill(&mut self, t: Slot, v: u32)
        requires tidy { Tidy (raw self.old) }
        requires has { Has self.old t }
        requires v_lt_given { v < self.old.given }
        ensures { Becomes (raw self.old) (hold (slot t) (Some v)) (raw self.new) }
    {
        let at = self.place(t);
        self.words[at] = v + 1;
    }

    // Empties the slot `t`.
    fn empty(&mut self, t: Slot)
        requires tidy { Tidy (raw self.old) }
        requires has { Has self.old t }
        ensures { Becomes (raw self.old) (hold (slot t) None) (raw self.new) }
    {
        let at = self.place(t);
        self.words[at] = 0;
    }

    // Gives the next number to an entry of the kind `k`, which no slot holds yet.
    fn add(&mut self, k: u32) -> u32
        requires tidy { Tidy (raw self.old) }
        requires given_lt_capacity { self.old.given < self.old.capacity }
        ensures is { result ≡ self.old.given }
        ensures after { Becomes (raw self.old) (added k) (raw self.new) }
    {
        let n = self.given;
        let at = self.at(n, 0);
        self.words[at] = k;
        self.words[at + 1] = n as u32;
        let links = self.links;
        self.words[at + 3..at + 3 + links].fill(0);
        self.given = n + 1;
        n as u32
    }

    // A new entry of the kind `k` fills the slot `t`.
    pub(crate) fn born(&mut self, k: u32, t: Slot) -> u32
        requires tidy { Tidy (raw self.old) }
        requires has { Has self.old t }
        requires given_lt_capacity { self.old.given < self.old.capacity }
        ensures is { result ≡ self.old.given }
        ensures after { Becomes (raw self.old) (born k (slot t)) (raw self.new) }
    {
        let n = self.add(k);
        self.fill(t, n);
        n
    }

    // The living entry `v` dies: its forward is `u`, and it waits.
    fn die(&mut self, v: u32, u: u32)
        requires tidy { Tidy (raw self.old) }
        requires v_lt_given { v < self.old.given }
        requires u_lt_v { u < v }
        requires v_lives { (view self.old).forward v ≡ v }
        ensures { Becomes (raw self.old) (die v u) (raw self.new) }
    {
        let at = self.at(v as usize, 1);
        let last = self.front + self.waits;
        let slot = self.at(last, 2);
        self.words[at] = u;
        self.words[slot] = v;
        self.waits += 1;
    }

    // The first that waits.
    fn first(&self) -> u32
        requires tidy { Tidy (raw self.now) }
        requires waits_nonzero { 0 < self.now.waits }
        ensures { result ≡ slice_index (view self.now).waiting 0 }
    {
        self.read(self.front, 2)
    }

    // The first that waits is taken from the list.
    fn pop(&mut self)
        requires tidy { Tidy (raw self.old) }
        requires waits_nonzero { 0 < self.old.waits }
        ensures { Becomes (raw self.old) pop (raw self.new) }
    {
        self.front += 1;
        self.waits -= 1;
    }
}
