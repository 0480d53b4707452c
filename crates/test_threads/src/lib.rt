//! Tests of what runs in threads and of what threads share: numbered tasks, boards of functions, rounds of visits, atoms; and of whole commands, where
//! the words and files of the program do not show it: reads and writes that fail, what is counted, and workers who meet.
//!
//! They stand in a crate of their own, since a crate with tests is proved twice. They call public items alone.
#![tactic(auto)]

#[cfg(test)]
mod atoms;
#[cfg(test)]
mod board;
#[cfg(test)]
mod commands;
#[cfg(test)]
mod counts;
#[cfg(test)]
mod faults;
#[cfg(test)]
mod instances;
#[cfg(test)]
mod meetings;
#[cfg(test)]
mod relazy;
#[cfg(test)]
mod rounds;
#[cfg(test)]
mod scripts;
#[cfg(test)]
mod tasks;
