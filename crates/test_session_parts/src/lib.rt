//! Tests of the crates that a command stands on: words, generated texts, and the tally.
//!
//! They stand in a crate of their own, since a crate with tests is proved twice. They call public items alone.
#![tactic(auto)]

#[cfg(test)]
mod tally;
#[cfg(test)]
mod trial;
#[cfg(test)]
mod words;
