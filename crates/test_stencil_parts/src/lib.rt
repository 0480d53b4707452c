//! Tests of the parts of which stencils are made: chains, and merging.
//!
//! They stand in a crate of their own, since a crate with tests is proved twice. They call public items alone.
#![tactic(auto)]

#[cfg(test)]
mod chains;
#[cfg(test)]
mod merging;
