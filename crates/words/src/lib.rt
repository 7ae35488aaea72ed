// Words on file: tags, faults, and the readers of words.
#![tactic(auto)]

pub mod faults;
pub mod reading;
pub mod tags;
pub mod tokens;
