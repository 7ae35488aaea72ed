// Registers behind one interface.
#![tactic(auto)]

pub mod blank;
pub mod held;
pub mod register;
pub mod wheel;
pub mod writing;
