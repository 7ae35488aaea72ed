// Shifts: a budget of steps.
ghost use Rattle.std.specs.Prelude.{◌+◌, ◌^◌, ◌<◌};

use machine::answers::Ending;

pub mod play;
pub mod steps;

// A budget left and a count of steps done. It is not copied: a step takes it, and gives it back or ends it.
pub struct Shift {
    left: u32,
    done: u32,
    ghost bound: { left + done < 2 ^ 32 },
}

// A shift goes on, or has ended after so many steps. Not ControlFlow: Continue and Break would hide which of the two the shift has come to.
pub enum Step {
    Going(Shift),
    Ended(Ending, u32),
}
