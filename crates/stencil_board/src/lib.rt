//! Set-once results: a board with a cell for each function of a script, in which several workers compile its functions.
//!
//! It stands on lazy_function, which compiles a function by its number, on compile_tally, on which each compile is counted, and on
//! once_cell, whose cells are set once and never wait. Who compiles the functions of a script on several threads stands on it.
//!
//! A worker has a [`Pass`], which says what is known of each cell. The main contract is that of [`Board::request`]: it answers
//! what the function is compiled to, whoever compiled it (`IsCompiledFunction` of lazy_function). It first requests the function
//! around that one, for its chain; it counts each compile beforehand; and it compiles only where the pass has no result, so
//! a pass has each function compiled once at most: the room that a pass lacks (`lacking` of `specs/Passes.antt`) goes on
//! sufficing. [`Board::publish`], [`Board::known`] and [`Board::meet`] say that a cell has one value for everybody.
//!
//! That a value is what its function is compiled to is in its type: a type parameter names the files of the command
//! ([`Sources`]), and the call that begins the work picks them. A reader compares which file and which number the value is of,
//! two numbers. A cell that keeps a value of another function is passed by, and the pass keeps a result of its own.
#![tactic(auto)]

mod board;
mod cells;
mod filled;
mod hands;
mod known;
mod pass;
mod requests;
mod sources;

pub use board::Board;
pub use filled::Filled;
pub use pass::Pass;
pub use sources::Sources;
