// The rules of a problem file.
ghost use Rattle.std.specs.Prelude.{◌≡◌};
ghost use Rattle.words.specs.Items.{behind, outlined};
ghost use Rattle.problems.specs.Problem.{rule_size};
ghost use Rattle.problems.specs.Held.{rule_in, rules_in};
ghost use Rattle.problems.specs.Shown.{shown};

use crate::schemas::Links;
use crate::{RULES, STEPS};
use bounded::Bounded;
use words::faults::{SchemaFault, WordFault};
use words::reading::{starts, word};
use words::tags::Tag;

impl Links<'_> {
    // A rule and its two paths, where there is room for one; tells the place behind them.
    fn rule(&self, room: usize, at: usize) -> Result<usize, SchemaFault>
        ensures { result ≡ behind rule_size at (rule_in self.now room at) }
    {
        let v = word(self.words, at, Tag::Rule)?;
        let left = v / 256 % 256;
        let right = v % 256;
        if room == 0 || left > STEPS || right > STEPS {
            return Err(WordFault::Limit(at).into());
        }
        let first = v / 65536;
        if first >= self.schema.kinds {
            return Err(SchemaFault::Unknown(at));
        }
        let one = self.path(left, first, at + 1)?;
        let other = self.path(right, first, at + 1 + left as usize)?;
        if one != other {
            return Err(SchemaFault::Unjoined(at + left as usize + right as usize));
        }
        Ok(at + 1 + left as usize + right as usize)
    }

    // Where the rules stand, and the place behind the last.
    // The same loop as that of a register's links, and no function over a closure: the proof of each is about its own reader.
    pub(crate) fn rules(&self, start: usize) -> Result<(Bounded<usize, RULES>, usize), SchemaFault>
        ensures { shown result ≡ outlined rule_size start (rules_in self.now start) }
    {
        let mut at = start;
        let mut places = Bounded::new(0);
        while starts(self.words, at, Tag::Rule) {
            let next = self.rule(RULES - places.len(), at)?;
            places.push(at);
            at = next;
        }
        Ok((places, at))
    }
}
