//! Tests of the parts by which a script is read: code points, atoms, brackets, the scanner, and handlers.
//!
//! They stand in a crate of their own, since a crate with tests is proved twice. They call public items alone.
#![tactic(auto)]

#[cfg(test)]
mod atoms;
#[cfg(test)]
mod brackets;
#[cfg(test)]
mod handlers;
#[cfg(test)]
mod texts;
#[cfg(test)]
mod tokens;
