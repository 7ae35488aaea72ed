// Examples of the file formats and of registers, from tables. All of it is for tests.
#![tactic(auto)]

#[cfg(test)]
mod answer_tables;
#[cfg(test)]
mod answer_tests;
#[cfg(test)]
mod files;
pub mod loose;
#[cfg(test)]
mod problem_tables;
#[cfg(test)]
mod problem_tests;
#[cfg(test)]
mod register_tables;
#[cfg(test)]
mod register_tests;
#[cfg(test)]
mod word_tables;
#[cfg(test)]
mod word_tests;
#[cfg(test)]
mod write_tables;
#[cfg(test)]
mod write_tests;
