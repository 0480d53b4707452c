//! All functions of a script compiled by several workers, discarded and compiled again, in rounds.
//!
//! It stands on relazy_board, which compiles a function where it is asked for and discards it where it is told to, on helper_tasks,
//! by whose workers the functions are visited side by side, and on compile_initial, which makes of a file what a script is before
//! any of its functions is compiled. The command `churn` stands on it.
//!
//! In a round each function is visited once: it is asked for, its instructions are counted, it is given back, and the function
//! before it is discarded. So a worker asks for functions while others discard them, and each round finds functions that the one
//! before discarded. Nothing is kept of a round but two sums.
//!
//! The main contract is that of [`churn`]: the number of instructions that the last round counted, with those of the script's own
//! part, is that of the script with all its functions compiled (`HasInstructions` of `specs/Counts.antt`), whatever was discarded
//! while it was asked for. [`visit_in_rounds`] is its inner part, for any number of rounds: its number is that of the functions alone.
#![tactic(auto)]

mod count;
mod hands;
mod order;
mod round;
mod rounds;
mod script;
mod visits;

pub use rounds::visit_in_rounds;
pub use script::{Churned, churn};
pub use visits::RoundSum;
