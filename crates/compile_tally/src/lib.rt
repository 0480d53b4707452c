//! The tally, on which the compiles of single functions are counted.
//!
//! It stands on no crate of this project. Whoever compiles functions one at a time counts each on a [`Ticks`]; who lends several
//! workers a part of the room has a [`Tally`]. They are two traits since a worker's task, which a job runs, asks for no more than
//! to count: what it is handed need not be sent to another thread. [`Sheet`] is the tally in memory.
//!
//! The main contract is that of the three calls (`specs/Tally.antt`): count and room have one sum, which no call changes, and a
//! call moves as much as it says from the room to the count, or back. No call takes memory.
#![tactic(auto)]

mod sheet;
mod tally;

pub use sheet::Sheet;
pub use tally::{Tally, Ticks};
