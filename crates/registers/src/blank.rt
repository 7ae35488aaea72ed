// The blank layer over any register.
ghost use Rattle.std.specs.Prelude.{◌≡◌};
ghost use Rattle.registers.specs.Blanks.{blank as blank_of};

use crate::register::Register;

// A register whose record 0 of each kind is a blank, seen without its blanks.
#[derive(Drop)]
pub struct Blank<R> {
    below: R,
}

impl<R: Register> Blank<R> {
    pub fn over(below: R) -> Blank<R>
        ensures { result.below ≡ below }
    {
        Blank { below }
    }
}

impl<R: Register> Register for Blank<R> {
    ghost meaning = { λ b. blank_of (R.Register.meaning b.below) };

    fn kinds(&self) -> u32 {
        self.below.kinds()
    }

    fn links(&self) -> u32 {
        self.below.links()
    }

    fn ends(&self, link: u32) -> Option<(u32, u32)> {
        self.below.ends(link)
    }

    fn count(&self, kind: u32) -> u32 {
        self.below.count(kind).saturating_sub(1)
    }

    fn follow(&self, link: u32, record: u32) -> Option<u32> {
        self.below
            .follow(link, record.checked_add(1)?)?
            .checked_sub(1)
    }
}
