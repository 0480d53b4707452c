//! The numbers of a script's functions, and its closed names by the function that binds them.
//!
//! Functions are numbered in the order in which they start, and the script binds names that its functions close over, as each of
//! them does. Those who compile a script stand on this crate.
//!
//! [`numbers_of`] gives functions their numbers by where they start; the definition is `numbers_of` of compile_specs.
//! [`ClosedNames`] sorts closed names: `of_script` and `of_function` answer those of the script and of a function, in the order of
//! scopes and bindings (`AreSorted` of `specs/Sorted.antt`).
#![tactic(auto)]

mod closed;
mod numbering;

pub use closed::ClosedNames;
pub use numbering::{number_of, numbers_of};
