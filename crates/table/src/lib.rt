// A coset table over lent work words.
#![tactic(auto)]

pub mod table;
