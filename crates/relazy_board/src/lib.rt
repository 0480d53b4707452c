//! Functions of a script, compiled on demand, whose results are discarded and made again while others read them.
//!
//! It stands on lazy_function, by which one function of a script is compiled by its number under its chain, on compile_tally, on
//! which each compile counts, and on the kit's counted_slot, whose slots hold one result each. Whoever keeps no result for longer
//! than it is read has a [`RelazyBoard`]; where results stay, stencil_board is simpler.
//!
//! The main contract is that of [`RelazyBoard::request`]: a [`Reading`], which stands for one result until it is released, is what
//! the function asked for is compiled to (`IsCompiledFunction` of lazy_function), also where that result was discarded before and
//! made again. [`RelazyBoard::value`] gives that one result each time. In every schedule no result is changed or given up while
//! a reading of it is out, and each call returns: none waits for another.
//!
//! Each function has one slot, with a word that counts its readers. Who finds a result there becomes one more reader; who finds
//! none compiles the function, leaves the result in the slot if that is still free, and keeps it in any case.
#![tactic(auto)]

mod board;
mod place;
mod reading;
mod slot;

pub use board::RelazyBoard;
pub use reading::Reading;
