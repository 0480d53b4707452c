//! Stencils put together: the parts of a script that was compiled lazily, and functions of it that were compiled alone.
//!
//! It stands on parser_atoms, in which the texts of all parts are interned, on bytecode_buf, which reads code and puts other
//! numbers into it, and on the data of stencil_data. Whoever compiles functions one at a time stands on it.
//!
//! Each function that was compiled alone has texts of its own, and names the functions in it by their places. A [`Merger`]
//! begins with the parts of a script, in which no function is compiled. [`Merger::add`] takes one function in, by atoms of its
//! own texts and with the numbers of functions in the script, and [`Merger::finish`] gives the merged stencil.
//!
//! The main contract is that of these three (`specs/Merging.antt`): whatever the parts stand for, and whatever each function
//! stands for by its own texts, the merged stencil stands for the script in which exactly the functions that were added are
//! compiled, each to what was added for it first, in whatever order.
#![tactic(auto)]

mod atoms;
mod code;
mod functions;
mod merger;
mod parts;
mod texts;
mod whole;

pub use merger::Merger;
pub use whole::{CompiledAlone, merge};
