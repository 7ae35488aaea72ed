// The searches for a check that merges or fills: of a source link at a record, and of a rule at an entry.
ghost use Rattle.std.specs.Prelude.{◌≡◌, ◌<◌, ◌==◌};
ghost use Rattle.machine.specs.Shift as shift;
ghost use Rattle.machine.specs.Shift.{lowest, only_if, acts};
ghost use Rattle.rows.specs.Walks.{links, shown_effect};
ghost use Rattle.searching.specs.Always.{Always};
ghost use Rattle.searching.specs.Searches.{link_at, rule_at};
ghost use Rattle.searching.specs.Tasks.{op_of, shown_task};

use crate::Task;
use crate::search::{Search, lowest};
use rows::checking::Effect;

// The task of a check that finds `what`, if it merges or fills.
fn acts(what: Effect, task: Task) -> Option<Task>
    ensures { shown_task result ≡ acts (shown_effect what) (op_of task) }
{
    match what {
        Effect::Merges(..) | Effect::Fills(..) => Some(task),
        Effect::Closed | Effect::Stuck => None,
    }
}

impl Search<'_> {
    // The check of the source link `i`, whose path is given, at the record `q`, if it acts.
    fn link_at(&self, i: u32, path: &[u32], q: u32) -> Option<Task>
        ensures { Always self.now (λ L s. i < L.source_links → links path.now ≡ L.link_map i → q < L.count (L.source_from i) → shown_task result ≡ link_at L s i q) }
    {
        let Search { rows, load } = self;
        let lead = rows.led(load, i, q)?;
        acts(rows.link_effect(lead, path), Task::Link(i, q))
    }

    // The check of the source link `i` at the first record where it acts.
    fn link(&self, i: u32) -> Option<Task>
        ensures { Always self.now (λ L s. i < L.source_links → shown_task result ≡ lowest (L.count (L.source_from i)) (link_at L s i)) }
    {
        let (from, _) = self.rows.source_ends(&self.load.found, i);
        let path = self.rows.link_path(&self.load.found, i as usize);
        lowest(
            self.rows.source.kind(from).records,
            |q| self.link_at(i, path, q),
        )
    }

    // The first check of a source link that acts.
    pub(crate) fn links(&self) -> Option<Task>
        ensures { Always self.now (λ L s. shown_task result ≡ shift.link_next L s) }
    {
        lowest(self.load.found.source.links as u32, |i| self.link(i))
    }

    // The check of the rule `i` at the entry `e`, if it acts.
    fn rule_at(&self, e: u32, i: u32) -> Option<Task>
        requires { e < self.now.rows.now.given }
        ensures { Always self.now (λ L s. i < L.rules → shown_task result ≡ rule_at L s e i) }
    {
        let (first, left, right) = self.rows.rule(&self.load.found, i as usize)?;
        if self.rows.kind(e) != first {
            return None;
        }
        acts(self.rows.rule_effect(left, right, e), Task::Rule(e, i))
    }

    // The first check of a rule at `e` that acts, if `e` lives.
    fn rule(&self, e: u32) -> Option<Task>
        ensures { Always self.now (λ L s. e < s.given → shown_task result ≡ only_if (s.forward e == e) (lowest L.rules (rule_at L s e))) }
    {
        if !self.rows.lives(e) {
            return None;
        }
        lowest(self.load.found.rules.len() as u32, |i| self.rule_at(e, i))
    }

    // The first check of a rule that acts. Without rules no entry is looked at: a shift asks this at each step.
    pub(crate) fn rules(&self) -> Option<Task>
        ensures { Always self.now (λ L s. shown_task result ≡ shift.rule_next L s) }
    {
        if self.load.found.rules.len() == 0 {
            return None;
        }
        lowest(self.rows.given as u32, |e| self.rule(e))
    }
}
