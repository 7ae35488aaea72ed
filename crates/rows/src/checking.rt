// Checks: what their two sides come to, and doing it.
ghost use Rattle.std.specs.Prelude.{◌≡◌};
ghost use Rattle.machine.specs.Walking.{walk};
ghost use Rattle.machine.specs.Checking.{sides, effect};
ghost use Rattle.machine.specs.Tables.{outcome};
ghost use Rattle.rows.specs.Layout.{Tidy, Becomes};
ghost use Rattle.rows.specs.View.{raw, view};
ghost use Rattle.rows.specs.Standing.{led_effect};
ghost use Rattle.rows.specs.Walks.{links, found, shown_side, shown_effect, Named};

use crate::paths::Lead;
use crate::walking::Side;
use crate::{Rows, Slot};
use machine::answers::Outcome;

// What a check is to do: nothing, since it closes; merge two entries; fill a slot; or nothing, since too much is missing.
#[derive(Clone, Copy)]
pub enum Effect {
    Closed,
    Merges(u32, u32),
    Fills(Slot, u32),
    Stuck,
}

// What two sides come to.
fn sides(left: Side, right: Side) -> Effect
    ensures { shown_effect result ≡ found (shown_side left) (shown_side right) }
{
    match (left, right) {
        (Side::End(a), Side::End(b)) if a == b => Effect::Closed,
        (Side::End(a), Side::End(b)) => Effect::Merges(a, b),
        (Side::End(a), Side::Gap(t)) => Effect::Fills(t, a),
        (Side::Gap(t), Side::End(b)) => Effect::Fills(t, b),
        _ => Effect::Stuck,
    }
}

impl Rows<'_> {
    // What the check of a rule with these paths finds at `e`.
    pub fn rule_effect(&self, left: &[u32], right: &[u32], e: u32) -> Effect
        ensures { shown_effect result ≡ sides (walk (view self.now).held e (links left.now)) (walk (view self.now).held e (links right.now)) }
    {
        sides(self.side(left, e), self.side(right, e))
    }

    // What the check of a source link finds at the record that `lead` names; the path is the link's.
    pub fn link_effect(&self, lead: Lead, path: &[u32]) -> Effect
        ensures { shown_effect result ≡ led_effect (view self.now) lead (links path.now) }
    {
        sides(
            self.side_in(Slot::Landing(lead.to, lead.led), &[]),
            self.side_in(Slot::Landing(lead.from, lead.q), path),
        )
    }

    // Does what a check found, and tells its outcome.
    pub(crate) fn act(&mut self, what: Effect) -> Outcome
        requires tidy { Tidy (raw self.old) }
        requires named { Named (raw self.old) (shown_effect what) }
        ensures told { result ≡ outcome (shown_effect what) }
        ensures after { Becomes (raw self.old) (effect (shown_effect what)) (raw self.new) }
    {
        match what {
            Effect::Closed => Outcome::Closed,
            Effect::Merges(a, b) => {
                self.merge(a, b);
                Outcome::Merged
            }
            Effect::Fills(t, a) => {
                self.fill(t, a);
                Outcome::Filled
            }
            Effect::Stuck => Outcome::Stopped,
        }
    }
}
