// Playing a shift to its end.
ghost use Rattle.std.specs.Prelude.{◌≡◌};
ghost use Rattle.machine.specs.Progress.{over};
ghost use Rattle.table.specs.Played.{shift_call};
ghost use Rattle.table.specs.Promises.{KeepsPromise};
ghost use Rattle.table.specs.Tabled.{view_of, origin_of};

use super::{Shift, Step};
use crate::table::Table;
use machine::answers::Ending;

impl Table<'_> {
    // Steps until the shift ends; tells how it ended, and after how many steps.
    pub fn play(&mut self, shift: Shift) -> (Ending, u32)
        ensures after { (view_of self.new, over result.0 result.1) ≡ shift_call shift.left shift.done (view_of self.old) }
        ensures kept { origin_of self.new ≡ origin_of self.old }
        ensures promise { KeepsPromise self.new }
    {
        let mut going = shift;
        loop {
            match self.step(going) {
                Step::Going(next) => going = next,
                Step::Ended(ending, steps) => return (ending, steps),
            }
        }
    }
}
