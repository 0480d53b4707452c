//! Tests of the parts of the companion: pages, how few edits are, places in a text, and colours.
//!
//! They stand in a crate of their own, since a crate with tests is proved twice. They call public items alone.
#![tactic(auto)]

#[cfg(test)]
mod colours;
#[cfg(test)]
mod edits;
#[cfg(test)]
mod page;
#[cfg(test)]
mod places;
