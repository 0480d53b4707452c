//! A table of atoms over a list of texts, shared by any number of threads without a lock: equal texts get
//! one atom, unequal texts unequal ones.
//!
//! It stands on stencil_data, whose texts it is over, and serves the crates that print a stencil or put
//! several of them together. The main contract is that of [`AtomTable::intern`], at a [`Desk`], which is a
//! thread's place at the table and carries what that thread has seen: afterwards the desk has seen the
//! answered atom with the text asked for, and any two atoms that it has seen are equal exactly where their
//! texts are. [`AtomTable::meet`] makes one desk of two, so what two threads have seen agrees.
//!
//! The table has one word a place, 0 or one more than the number of a text, and is searched from a home
//! by the text's hash to the first place that is free or has an equal text; an atom is that place
//! (`specs/Words.antt`). `specs/Rule.antt` has the rule that each step on a word keeps. `intern`, `text_no`
//! and `meet` take no memory and no lock, and return in every schedule.
#![tactic(auto)]

pub mod atoms;
mod rule;
pub mod text_list;

pub use atoms::{Atom, AtomTable, Desk};
pub use text_list::TextList;
