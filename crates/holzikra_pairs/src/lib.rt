//! Two scripts compared function by function: which function of the old one is which of the new one, and the lines of their code as
//! they can be compared.
//!
//! It stands on the data of stencils, the plain listing (script_image) and the numbers of lines (holzikra_edits), below what shows
//! the differences of two scripts to people. Two functions are a pair where they and the functions around them have the same names
//! and are written in the same way; among several such functions they are paired in order. A line of code is that of the plain
//! listing without its offset; a jump names its target by the number of the target among all targets of the code (`L1`), and a
//! function that is made has the number of the pair. So an edit in one function shows nothing in the next.
//!
//! Proved is that both calls are safe and end on every merged stencil, also on one that comes from an image and that no script has;
//! what they answer is tested.
#![tactic(auto)]

mod chains;
mod code_lines;
mod labels;
mod pairs;
mod plain;

pub use code_lines::{CodeLines, Numbers, script_lines};
pub use pairs::{Pairs, pairs_of};
