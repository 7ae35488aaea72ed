// Questions to the problem and the source that stand in a table's own words.
ghost use Rattle.std.specs.Prelude.{◌≡◌, ◌<◌};
ghost use Rattle.bounded.specs.Listed.{listed};
ghost use Rattle.machine.specs.Loaded.{Loaded};
ghost use Rattle.rows.specs.View.{raw};
ghost use Rattle.rows.specs.Standing.{Stands, Holds, Holding, Leads, lead_of};

use crate::paths::Lead;
use crate::{Rows, Slot};
use bounded::Bounded;
use problems::Found;
use words::reading::fields_at;

// What was loaded: the outline of the problem, and where the leads of each source link begin.
// That some rows hold it is a condition where a call takes both; the table above and its searches have it as a fact of theirs.
#[derive(Clone, Copy)]
pub struct Load {
    pub found: Found,
    pub leads: Bounded<usize, 64>,
}

impl Rows<'_> {
    // The ends of the target link `l`; any of a link that there is not. No `Option`, as for the two questions below: who asks knows that there is
    // such a number, or tests it in an order of its own: `define` refuses for waiting entries first, and `leaves` tests the link in any case.
    pub fn link_ends(&self, found: &Found, l: u32) -> (u32, u32)
        ensures { (L : Loaded) → Stands L (raw self.now) found.now → l < L.links → (L.from l ≡ result.0) × (L.to l ≡ result.1) }
    {
        found.target.ends(self.words, l).unwrap_or((0, 0))
    }

    // The target kind of the source kind `k`, any of a kind that there is not, in the words of the reader of problems (a call for both would be longer).
    pub fn mapped(&self, found: &Found, k: u32) -> u32
        ensures { (L : Loaded) → Stands L (raw self.now) found.now → k < L.source_kinds → L.kind_map k ≡ result }
    {
        if k >= found.source.kinds {
            return 0;
        }
        fields_at(self.words, found.maps.saturating_add(k as usize)) % 256
    }

    // The ends of the source link `i`; any of a link that there is not.
    pub fn source_ends(&self, found: &Found, i: u32) -> (u32, u32)
        ensures { (L : Loaded) → Stands L (raw self.now) found.now → i < L.source_links → (L.source_from i ≡ result.0) × (L.source_to i ≡ result.1) }
    {
        found.source.ends(self.words, i).unwrap_or((0, 0))
    }

    // The record `q` that the source link `i` leaves, and where it leads it; any record where there is no such link or record.
    // No `Option`, so that `check_link` refuses for waiting entries first.
    pub fn lead(&self, load: &Load, i: u32, q: u32) -> Lead
        requires { ∥ Holding (raw self.now) load.now.found (listed load.now.leads) ∥₁ }
        ensures led { (L : Loaded) → Holds L (raw self.now) load.now.found (listed load.now.leads) → Leads L (raw self.now) load.now.found i result }
        ensures asked { result.q ≡ q }
    {
        let (from, to) = self.source_ends(&load.found, i);
        let none = Lead {
            from,
            q,
            to,
            led: 0,
        };
        self.led(load, i, q).unwrap_or(none)
    }

    // The same, if there is such a link and record.
    pub fn led(&self, load: &Load, i: u32, q: u32) -> Option<Lead>
        requires { ∥ Holding (raw self.now) load.now.found (listed load.now.leads) ∥₁ }
        ensures { (L : Loaded) → Holds L (raw self.now) load.now.found (listed load.now.leads) → result ≡ lead_of L i q }
    {
        let (from, to) = load.found.source.ends(self.words, i)?;
        if !self.has(Slot::Landing(from, q)) {
            return None;
        }
        let at = load.leads.get(i as usize).unwrap_or(0) + q as usize;
        Some(Lead {
            from,
            q,
            to,
            led: self.words[at],
        })
    }
}
