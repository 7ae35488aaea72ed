// Examples of calls on tables, from tables of rows. All of it is for tests.
#![tactic(auto)]

#[cfg(test)]
mod driven_tables;
#[cfg(test)]
mod driven_tests;
#[cfg(test)]
mod load_tables;
#[cfg(test)]
mod load_tests;
#[cfg(test)]
mod shift_tables;
#[cfg(test)]
mod shift_tests;

// Every word that a call may not change holds this before it.
#[cfg(test)]
const OLD: u32 = 0xF1234567;
