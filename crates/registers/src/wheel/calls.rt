// The wheel's answers.
ghost use Rattle.std.specs.Prelude.{◌≡◌, take};
ghost use Rattle.registers.specs.Wheels.{wheel as wheel_of};
ghost use Rattle.registers.specs.Turning.{meaning_of};

use crate::register::Register;
use crate::wheel::Wheel;
use bounded::Bounded;

impl Wheel {
    // A wheel of that many records with the first eight of the steps.
    pub fn new(size: u16, steps: &[u16]) -> Wheel
        ensures { meaning_of result ≡ wheel_of size (take 8 steps.now) }
    {
        let first = &steps[..steps.len().min(8)];
        let mut list = Bounded::new(0);
        for step in first {
            list.push(*step);
        }
        Wheel { size, steps: list }
    }
}

impl Register for Wheel {
    ghost meaning = { λ w. meaning_of w };

    fn kinds(&self) -> u32 {
        1
    }

    fn links(&self) -> u32 {
        self.steps.len() as u32
    }

    fn ends(&self, link: u32) -> Option<(u32, u32)> {
        ((link as usize) < self.steps.len()).then_some((0, 0))
    }

    fn count(&self, kind: u32) -> u32 {
        if kind == 0 { u32::from(self.size) } else { 0 }
    }

    fn follow(&self, link: u32, record: u32) -> Option<u32> {
        let size = u32::from(self.size);
        let step = u32::from(self.steps.get(link as usize)?);
        if record < size {
            Some((record + step) % size)
        } else {
            None
        }
    }
}
