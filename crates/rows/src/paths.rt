// The paths of the problem that stands in a table's own words, and the checks along them.
ghost use Rattle.std.specs.Prelude.{◌≡◌, ◌&&◌, ◌==◌};
ghost use Rattle.problems.specs.Tokens.{shown_token};
ghost use Rattle.machine.specs.Loaded.{Loaded};
ghost use Rattle.machine.specs.State.{lives};
ghost use Rattle.machine.specs.Checking.{rule_effect, link_effect};
ghost use Rattle.machine.specs.Calls.{check_rule, check_link, apply, rule_fault, link_fault};
ghost use Rattle.machine.specs.Tables.{outcome, answered};
ghost use Rattle.rows.specs.Layout.{Tidy, Becomes};
ghost use Rattle.rows.specs.View.{raw, view};
ghost use Rattle.rows.specs.Walks.{links};
ghost use Rattle.rows.specs.Standing.{Stands, Standing, parts_in, shown_parts, linked, rule_of, shown_found, Leads, Leading};

use crate::checking::Effect;
use crate::{Rows, Slot};
use machine::answers::Outcome;
use problems::{Found, link_map_at, rule_at};
use words::faults::Refusal;
use words::tokens::Token;

// The record `q` of the source kind `from`, and the record `led` of the kind `to` that a source link leads it to.
#[derive(Clone, Copy)]
pub struct Lead {
    pub from: u32,
    pub q: u32,
    pub to: u32,
    pub led: u32,
}

// The parts of a token: a rule's first kind and two paths, or a link map's link and path.
fn parts_in<'b>(token: Option<Token<'b>>) -> Option<(u32, &'b [u32], &'b [u32])>
    ensures { shown_parts result ≡ parts_in (shown_token token.entry) }
{
    match token? {
        Token::Rule {
            first,
            left,
            right,
            ..
        } => Some((first, left, right)),
        Token::LinkMap { link, path, .. } => Some((link, path, &[])),
        _ => None,
    }
}

impl Rows<'_> {
    // The rule `i`, if there is one: its first kind and its two paths.
    pub fn rule<'b>(&'b self, found: &Found, i: usize) -> Option<(u32, &'b [u32], &'b [u32])>
        ensures { (L : Loaded) → Stands L (raw self.now) found.now → linked (shown_parts result) ≡ rule_of L i }
    {
        parts_in(rule_at(&self.words[..self.lands], found, i))
    }

    // The path of the source link `i`, which is empty where there is no such link. No `Option`: who asks knows that there is
    // such a link, and a `None` would add a branch that gives up and is never taken.
    pub fn link_path<'b>(&'b self, found: &Found, i: usize) -> &'b [u32]
        ensures { (L : Loaded) → Stands L (raw self.now) found.now → links result.now ≡ L.link_map i }
    {
        match parts_in(link_map_at(&self.words[..self.lands], found, i)) {
            Some((_, path, _)) => path,
            None => &[],
        }
    }

    // Whether `e` lives and has that kind.
    pub(crate) fn lives_as(&self, e: u32, kind: u32) -> bool
        ensures { result ≡ (lives (view self.now) e && (view self.now).kind e == kind) }
    {
        self.lives(e) && self.kind(e) == kind
    }

    // What the check of the rule `i` finds at `e`, or why it is refused.
    fn rule_found(&self, found: &Found, e: u32, i: usize) -> Result<Effect, Refusal>
        ensures { (L : Loaded) → Stands L (raw self.now) found.now → shown_found result ≡ answered (rule_fault L (view self.now) e i) (rule_effect L (view self.now) e i) }
    {
        if self.waits > 0 {
            return Err(Refusal::Waiting);
        }
        let (first, left, right) = self.rule(found, i).ok_or(Refusal::NotLiving)?;
        if !self.lives_as(e, first) {
            return Err(Refusal::NotLiving);
        }
        Ok(self.rule_effect(left, right, e))
    }

    // Checks the rule `i` at `e`.
    pub fn check_rule(&mut self, found: &Found, e: u32, i: usize) -> Result<Outcome, Refusal>
        requires tidy { Tidy (raw self.old) }
        requires standing { Standing (raw self.old) found.now }
        ensures is { (L : Loaded) → Stands L (raw self.old) found.now → result ≡ answered (rule_fault L (view self.old) e i) (outcome (rule_effect L (view self.old) e i)) }
        ensures after { (L : Loaded) → Stands L (raw self.old) found.now → Becomes (raw self.old) (apply L (check_rule e i)) (raw self.new) }
    {
        let what = self.rule_found(found, e, i)?;
        Ok(self.act(what))
    }

    // What the check of the source link `i` finds where it leads as `lead` says, or why it is refused.
    fn link_found(&self, found: &Found, i: usize, lead: Lead) -> Result<Effect, Refusal>
        ensures { (L : Loaded) → Leads L (raw self.now) found.now i lead → shown_found result ≡ answered (link_fault L (view self.now) i lead.q) (link_effect L (view self.now) i lead.q) }
    {
        if self.waits > 0 {
            return Err(Refusal::Waiting);
        }
        if i >= found.source.links || !self.has(Slot::Landing(lead.from, lead.q)) {
            return Err(Refusal::NotLiving);
        }
        let path = self.link_path(found, i);
        Ok(self.link_effect(lead, path))
    }

    // Checks the source link `i` where it leads as `lead` says.
    pub fn check_link(&mut self, found: &Found, i: usize, lead: Lead) -> Result<Outcome, Refusal>
        requires tidy { Tidy (raw self.old) }
        requires leading { Leading (raw self.old) found.now i lead }
        ensures is { (L : Loaded) → Leads L (raw self.old) found.now i lead → result ≡ answered (link_fault L (view self.old) i lead.q) (outcome (link_effect L (view self.old) i lead.q)) }
        ensures after { (L : Loaded) → Leads L (raw self.old) found.now i lead → Becomes (raw self.old) (apply L (check_link i lead.q)) (raw self.new) }
    {
        let what = self.link_found(found, i, lead)?;
        Ok(self.act(what))
    }
}
