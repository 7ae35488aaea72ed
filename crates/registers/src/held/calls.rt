ghost use Rattle.std.specs.Prelude.{◌≡◌};
ghost use Rattle.register_files.specs.Register.{read as read_of};
ghost use Rattle.words.specs.Words.{giving};
ghost use Rattle.registers.specs.Meaning.{answers, no_file};
ghost use Rattle.registers.specs.Holding.{held_file, kept};

use crate::held::Held;
use crate::register::Register;
use bounded::Bounded;
use register_files::{Outline, read_register};
use words::faults::SchemaFault;
use words::reading::fields_at;

impl<'a> Held<'a> {
    // A register with no kinds.
    pub fn new() -> Held<'a>
        ensures { held_file result ≡ no_file }
    {
        Held {
            words: &[],
            outline: Outline {
                kinds: 0,
                links: Bounded::new(0),
            },
        }
    }

    // Takes a register file in, or refuses it and keeps what it held.
    pub fn take(&mut self, words: &'a [u32]) -> Result<(), SchemaFault>
        ensures answer { result ≡ giving tt (read_of words.now) }
        ensures after { held_file self.new ≡ kept (held_file self.old) (read_of words.now) }
    {
        let outline = read_register(words)?;
        *self = Held { words, outline };
        Ok(())
    }
}

impl<'a> Register for Held<'a> {
    ghost meaning = { λ h. answers (held_file h) };

    fn kinds(&self) -> u32 {
        self.outline.kinds
    }

    fn links(&self) -> u32 {
        self.outline.links.len() as u32
    }

    fn ends(&self, link: u32) -> Option<(u32, u32)> {
        let place = self.outline.links.get(link as usize)?;
        let fields = fields_at(self.words, place);
        Some((fields / 256, fields % 256))
    }

    fn count(&self, kind: u32) -> u32 {
        if kind < self.outline.kinds {
            fields_at(self.words, 1 + kind as usize)
        } else {
            0
        }
    }

    fn follow(&self, link: u32, record: u32) -> Option<u32> {
        let place = self.outline.links.get(link as usize)?;
        let (from, _) = self.ends(link)?;
        if record >= self.count(from) {
            return None;
        }
        Some(fields_at(self.words, place + 1 + record as usize))
    }
}
