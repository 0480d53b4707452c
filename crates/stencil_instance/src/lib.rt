//! Stencils whose texts are named by atoms of a table that all stencils share, as the names of a running engine are.
//!
//! It stands on atom_table, which gives equal texts one atom for any number of threads, and on the data of stencils. A program that
//! embeds the compiler stands on it.
//!
//! The texts of all stencils are [`Gathered`] in one list, and a table of atoms is made over it. Then each thread at a desk of its own
//! makes an [`Instance`] of each of its stencils by [`instantiate`]: for each text of the stencil the atom that all threads have for
//! it. The main contract is that of this call: by the desk, each atom is that of its text, and all else is as the stencil had it
//! (`IsInstanceBy` of `specs/Instances.antt`). Once two desks have met, two atoms of any two instances are equal exactly where their
//! texts are (`OneAtomEach` of atom_table). [`Instance::into_stencil`] is the way back.
#![tactic(auto)]

mod gathered;
mod instance;

pub use gathered::{GatherRefusal, Gathered};
pub use instance::{Instance, instantiate};
