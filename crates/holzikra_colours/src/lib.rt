//! What a command prints for a person, in colours.
//!
//! It stands on nothing, below the commands. An answer is taken whole, as it would be printed without colours, and each of its
//! lines has one part at most that is shown in another way.
//!
//! The main contract: with its colour sequences taken out, what [`coloured`] answers is the text that it was given
//! (`without_colours` of `specs/Colours.antt`). Which parts of a line have a colour is tested.
#![tactic(auto)]

mod answer;
mod paint;
mod part;

pub use answer::{Answer, coloured};
