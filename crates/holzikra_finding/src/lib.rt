//! Functions of a script that are found by a place, or by the functions in them.
//!
//! It stands on the data of stencils, below the program for people. It looks at the records of a script's functions alone.
//!
//! The main contract: the function that [`innermost_at`] answers contains the offset, and no function inside it does; where it
//! answers none, no function contains it (`IsInnermostAt` of `specs/Finding.antt`).
#![tactic(auto)]

mod nesting;
mod places;

pub use nesting::{Shown, shown_of, with_inner};
pub use places::innermost_at;
