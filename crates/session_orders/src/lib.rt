//! In which order the tasks of a command are handed to workers.
//!
//! It stands on session_words, whose [`Order`](session_words::Order) is what the words of a command ask for. session_requests puts the
//! functions of a file into that order, and compile_session the files.
//!
//! The main contract is that of [`put_in_order`] (`AreInOrder` of `specs/Orders.antt`): the same numbers, which stand as they did,
//! backwards, or those of the larger things first. What a command prints does not depend on it.
#![tactic(auto)]

mod order;

pub use order::{Sizes, put_in_order};
