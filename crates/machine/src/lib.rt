// The machine of a table: its definitions stand in specs/, and its laws here, each as the contract of a function that does nothing.
#![tactic(auto)]

ghost use Rattle.machine.specs.Promise.{LoadsAccepted, Promise};
ghost use Rattle.machine.specs.ReadBack.{FinishReadsBack};
ghost use Rattle.machine.specs.Shift.{AllSound, AllReached, AllRoom, AllWithin, AllKinds};
ghost use Rattle.machine.specs.Complete.{CompleteWhenDone};
ghost use Rattle.machine.specs.Finish.{FinishAccepts, FinishBounds, OneTable};
ghost use Rattle.machine.specs.Sequence.{AllNumbered};
ghost use Rattle.machine.specs.Universal.{FinishExtends};
ghost use Rattle.machine.specs.Lost.{NothingLost, NeverLost};
ghost use Rattle.machine.specs.Refused.{RefusalsChangeNothing};
ghost use Rattle.machine.specs.Worked.{Worked};

pub mod answers;

// What load accepts is a problem and a source that fit together.
pub fn loads_are_accepted() -> u8
    ensures { LoadsAccepted }
{
    0
}

// The whole promise, over every accepted load and every list of calls.
pub fn promise_stands() -> u8
    ensures { Promise }
{
    0
}

// What finish writes is read back as the register that the table shows.
pub fn reads_back_stands() -> u8
    ensures { FinishReadsBack }
{
    0
}

// Forwards lead down, who waits is dead, and what is held is living or waits.
pub fn sound_stands() -> u8
    ensures { AllSound }
{
    0
}

// Every numbered entry is reached from a landing.
pub fn reached_stands() -> u8
    ensures { AllReached }
{
    0
}

// The waiting list never needs more places than there are entries.
pub fn room_stands() -> u8
    ensures { AllRoom }
{
    0
}

// The numbers given never pass the capacity.
pub fn within_stands() -> u8
    ensures { AllWithin }
{
    0
}

// What a slot holds has the kind that the slot is for.
pub fn kinds_stand() -> u8
    ensures { AllKinds }
{
    0
}

// A step finds nothing to do exactly if the table is complete.
pub fn complete_stands() -> u8
    ensures { CompleteWhenDone }
{
    0
}

// Finish accepts exactly the complete tables.
pub fn finish_accepts_stands() -> u8
    ensures { FinishAccepts }
{
    0
}

// The numbering sequence has each living entry at exactly one place.
pub fn numbered_stands() -> u8
    ensures { AllNumbered }
{
    0
}

// Counts fit where the capacity does.
pub fn bounds_stand() -> u8
    ensures { FinishBounds }
{
    0
}

// Two complete tables of one load are one, but for the numbers of their entries.
pub fn one_table_stands() -> u8
    ensures { OneTable }
{
    0
}

// The finished register is the universal one.
pub fn extends_stands() -> u8
    ensures { FinishExtends }
{
    0
}

// No call loses a filled landing or a filled cell.
pub fn nothing_lost_stands() -> u8
    ensures { NothingLost }
{
    0
}

// Nor does any list of calls.
pub fn never_lost_stands() -> u8
    ensures { NeverLost }
{
    0
}

// A refused call changes nothing.
pub fn refusals_stand() -> u8
    ensures { RefusalsChangeNothing }
{
    0
}

// The worked examples, computed through the definitions.
pub fn worked_stands() -> u8
    ensures { Worked }
{
    0
}
