// A register that may pass the limits of a file, and whose links may lead astray.
ghost use Rattle.vectors.specs.Loose.{loose as loose_of};

use registers::register::Register;

// So many kinds of so many records each, and links with the same ends that lead every counted record to the same one.
#[derive(Clone, Copy)]
pub struct Loose {
    pub kinds: u32,
    pub records: u32,
    pub links: u32,
    pub from: u32,
    pub to: u32,
    pub led: u32,
}

impl Register for Loose {
    ghost meaning = { λ l. loose_of l.kinds l.records l.links l.from l.to l.led };

    fn kinds(&self) -> u32 {
        self.kinds
    }

    fn links(&self) -> u32 {
        self.links
    }

    fn ends(&self, link: u32) -> Option<(u32, u32)> {
        if link < self.links {
            Some((self.from, self.to))
        } else {
            None
        }
    }

    fn count(&self, kind: u32) -> u32 {
        if kind < self.kinds { self.records } else { 0 }
    }

    fn follow(&self, link: u32, record: u32) -> Option<u32> {
        if link < self.links && self.from < self.kinds && record < self.records {
            Some(self.led)
        } else {
            None
        }
    }
}
