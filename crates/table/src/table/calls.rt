// The calls of a table, and the questions to it. None requires anything.
ghost use Rattle.std.specs.Prelude.{◌≡◌, length, Ok, Err};
ghost use Rattle.machine.specs.Tables.{opening, loading, capacity_told, given_told, living_told, waiting_told, cell_told, landing_told, settle_call, landing_call, define_call, rule_call, link_call, sweep_call};
ghost use Rattle.table.specs.Promises.{KeepsPromise};
ghost use Rattle.table.specs.Tabled.{view_of, origin_of, IsLoaded};

use crate::table::Table;
use bounded::Bounded;
use loading::load;
use machine::answers::{LoadFault, Outcome};
use registers::register::Register;
use rows::{Rows, Slot, Source, SourceKind};
use words::faults::Refusal;

impl<'a> Table<'a> {
    // A table over the words, not loaded.
    pub fn open(words: &'a mut [u32]) -> Table<'a>
        ensures { view_of result ≡ opening (length words.old) }
    {
        let blank = SourceKind {
            records: 0,
            start: 0,
        };
        let source = Source {
            kinds: Bounded::new(blank),
        };
        let rows = Rows {
            words,
            source,
            lands: 0,
            records: 0,
            base: 0,
            links: 0,
            capacity: 0,
            given: 0,
            front: 0,
            waits: 0,
        };
        Table { rows, load: None }
    }

    // The words, given back.
    pub fn close(self) -> &'a mut [u32]
        ensures { result.now ≡ self.entry.rows.words.now }
    {
        let Table { rows, .. } = self;
        let Rows { words, .. } = rows;
        words
    }
}

impl Table<'_> {
    // Takes a problem and a source into the work words. A refusal changes nothing.
    pub fn load<R: Register>(&mut self, problem: &[u32], source: &R) -> Result<(), LoadFault>
        ensures after { (view_of self.new, result) ≡ loading problem.now (R.meaning source.now) (view_of self.old) }
        ensures origin { result ≡ Ok tt → origin_of self.new ≡ (problem.now, R.meaning source.now) }
        ensures words { (e : LoadFault) → result ≡ Err e → self.new.rows.words.now ≡ self.old.rows.words.now }
        ensures promise { KeepsPromise self.new }
    {
        if self.load.is_some() {
            return Err(LoadFault::Loaded);
        }
        let rows = &mut self.rows;
        let taken = load(rows.words, problem, source)?;
        rows.source = taken.source;
        rows.lands = taken.lands;
        rows.records = taken.records;
        rows.base = taken.base;
        rows.links = taken.links;
        rows.capacity = taken.capacity;
        rows.given = 0;
        rows.front = 0;
        rows.waits = 0;
        self.load = Some(taken.load);
        Ok(())
    }

    // The rows, if something was loaded into them.
    fn loaded(&self) -> Result<&Rows<'_>, Refusal>
        ensures { IsLoaded self.now result }
    {
        match &self.load {
            Some(_) => Ok(&self.rows),
            None => Err(Refusal::State),
        }
    }

    // How many entries the table has room for.
    pub fn capacity(&self) -> Result<u32, Refusal>
        ensures { result ≡ capacity_told (view_of self.now) }
    {
        Ok(self.loaded()?.capacity as u32)
    }

    // How many numbers were given since the last sweep.
    pub fn given(&self) -> Result<u32, Refusal>
        ensures { result ≡ given_told (view_of self.now) }
    {
        Ok(self.loaded()?.given as u32)
    }

    // How many entries live.
    pub fn living(&self) -> Result<u32, Refusal>
        ensures { result ≡ living_told (view_of self.now) }
    {
        Ok(self.loaded()?.living())
    }

    // How many wait.
    pub fn waiting(&self) -> Result<u32, Refusal>
        ensures { result ≡ waiting_told (view_of self.now) }
    {
        Ok(self.loaded()?.waits as u32)
    }

    // The cell of the living entry `e` at the link `l`, which leaves its kind.
    pub fn cell(&self, e: u32, l: u32) -> Result<Option<u32>, Refusal>
        ensures { result ≡ cell_told e l (view_of self.now) }
    {
        let Some(load) = &self.load else {
            return Err(Refusal::State);
        };
        let (from, _) = self.rows.link_ends(&load.found, l);
        if self.rows.leaves(e, l, from) {
            Ok(self.rows.cell(e, l))
        } else {
            Err(Refusal::NotLiving)
        }
    }

    // The landing of record `q` of the source kind `k`.
    pub fn landing(&self, k: u32, q: u32) -> Result<Option<u32>, Refusal>
        ensures { result ≡ landing_told k q (view_of self.now) }
    {
        self.loaded()?;
        if self.rows.has(Slot::Landing(k, q)) {
            Ok(self.rows.landing(k, q))
        } else {
            Err(Refusal::NotLiving)
        }
    }

    // Settles the first that waits, and tells how many still wait.
    pub fn settle(&mut self) -> Result<u32, Refusal>
        ensures after { (view_of self.new, result) ≡ settle_call (view_of self.old) }
        ensures kept { origin_of self.new ≡ origin_of self.old }
        ensures promise { KeepsPromise self.new }
    {
        self.loaded()?;
        if self.rows.waits == 0 {
            return Err(Refusal::NoneWaits);
        }
        self.rows.settle();
        Ok(self.rows.waits as u32)
    }

    // A new entry at the landing of record `q` of the source kind `k`.
    pub fn land(&mut self, k: u32, q: u32) -> Result<u32, Refusal>
        ensures after { (view_of self.new, result) ≡ landing_call k q (view_of self.old) }
        ensures kept { origin_of self.new ≡ origin_of self.old }
        ensures promise { KeepsPromise self.new }
    {
        let Some(load) = &self.load else {
            return Err(Refusal::State);
        };
        let kind = self.rows.mapped(&load.found, k);
        self.rows.land(k, q, kind)
    }

    // A new entry at the cell of the living entry `e` and the link `l`, which leaves its kind.
    pub fn define(&mut self, e: u32, l: u32) -> Result<u32, Refusal>
        ensures after { (view_of self.new, result) ≡ define_call e l (view_of self.old) }
        ensures kept { origin_of self.new ≡ origin_of self.old }
        ensures promise { KeepsPromise self.new }
    {
        let Some(load) = &self.load else {
            return Err(Refusal::State);
        };
        let (from, to) = self.rows.link_ends(&load.found, l);
        self.rows.define(e, l, from, to)
    }

    // Checks the rule `i` at the living entry `e`, which has its first kind.
    pub fn check_rule(&mut self, e: u32, i: u32) -> Result<Outcome, Refusal>
        ensures after { (view_of self.new, result) ≡ rule_call e i (view_of self.old) }
        ensures kept { origin_of self.new ≡ origin_of self.old }
        ensures promise { KeepsPromise self.new }
    {
        let Some(load) = &self.load else {
            return Err(Refusal::State);
        };
        self.rows.check_rule(&load.found, e, i as usize)
    }

    // Checks the source link `i` at the record `q`, which it leaves.
    pub fn check_source_link(&mut self, i: u32, q: u32) -> Result<Outcome, Refusal>
        ensures after { (view_of self.new, result) ≡ link_call i q (view_of self.old) }
        ensures kept { origin_of self.new ≡ origin_of self.old }
        ensures promise { KeepsPromise self.new }
    {
        let Some(load) = &self.load else {
            return Err(Refusal::State);
        };
        let lead = self.rows.lead(load, i, q);
        self.rows.check_link(&load.found, i as usize, lead)
    }

    // Numbers the living anew in their order, and drops the dead; tells how many.
    pub fn sweep(&mut self) -> Result<u32, Refusal>
        ensures after { (view_of self.new, result) ≡ sweep_call (view_of self.old) }
        ensures kept { origin_of self.new ≡ origin_of self.old }
        ensures promise { KeepsPromise self.new }
    {
        self.loaded()?;
        if self.rows.waits > 0 {
            return Err(Refusal::Waiting);
        }
        Ok(self.rows.sweep() as u32)
    }
}
