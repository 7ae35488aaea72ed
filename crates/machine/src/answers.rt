// What the calls on a table answer.
ghost use Rattle.std.specs.Prelude.{◌≡◌};
ghost use Rattle.machine.specs.declared.answers.LoadFault.TheVariants.{Problem};
ghost use Rattle.machine.specs.LoadFaults.{load_fault};

use words::faults::{Fault, Refusal, SchemaFault};

// Why a load is refused; a fault of the problem's words stands whole inside.
#[derive(Clone, Copy, PartialEq, Eq, Debug)]
pub enum LoadFault {
    Loaded,
    Problem(SchemaFault),
    Shape,
    Large,
    Leads(u32),
    Memory,
}

impl From<SchemaFault> for LoadFault {
    ghost from_gives = { λ f r. r ≡ Problem f };

    fn from(f: SchemaFault) -> LoadFault {
        LoadFault::Problem(f)
    }
}

impl From<LoadFault> for Fault {
    ghost from_gives = { λ f r. r ≡ load_fault f };

    fn from(f: LoadFault) -> Fault {
        match f {
            LoadFault::Loaded => Refusal::State.at(0),
            LoadFault::Problem(g) => Fault::from(g),
            LoadFault::Shape => Refusal::Shape.at(0),
            LoadFault::Large => Refusal::Large.at(0),
            LoadFault::Leads(link) => Refusal::Leads.at(link as usize),
            LoadFault::Memory => Refusal::Memory.at(0),
        }
    }
}

// What a check found and did.
#[derive(Clone, Copy, PartialEq, Eq, Debug)]
pub enum Outcome {
    Closed,
    Merged,
    Filled,
    Stopped,
}

// How a shift ended.
#[derive(Clone, Copy, PartialEq, Eq, Debug)]
pub enum Ending {
    NotLoaded,
    Complete,
    Spent,
    Full,
}
