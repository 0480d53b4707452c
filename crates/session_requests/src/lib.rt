//! The functions of a command's files that are asked for, compiled by several workers.
//!
//! It stands on `stencil_board`, on which each function of a script is compiled once and is then there for all, on `compile_shown`,
//! which takes from it the functions that are shown, on `compile_tally`, on which each compile is counted, and on `helper_tasks`, by
//! whose workers requests are made side by side. compile_session stands on it.
//!
//! A [`ScriptWork`] is a file whose functions can be asked for. Each worker has a [`Hand`], with a seat at every such file: what it
//! knows of the file's functions, and a sheet on which it counts those that it compiled. [`requests_of`] lists what is asked of the
//! files, [`request_all`] makes these requests by all workers, and [`Hand::merged`] is the script with the functions that are shown.
//!
//! The main contract is that of [`Hand::merged`]: whatever was asked before, by whomever, the stencil stands for what is shown of
//! the script (`IsMerged` of `specs/Works.antt`). That the hands still fit the files after all requests is the contract of
//! [`request_all`] (`Fits` of `specs/Hands.antt`). [`compiled_by`] is what they counted: at most what is shown for each worker.
#![tactic(auto)]

mod hand;
mod job;
mod numbers;
mod requests;
mod seat;
mod work;

pub use hand::{Hand, compiled_by, hands_for};
pub use job::request_all;
pub use numbers::rising;
pub use requests::{Request, requests_of};
pub use work::{ScriptWork, shown_in};
