//! Runs the tasks of a job on several workers, which take tasks from each other's deques.
//!
//! A `Job` says what a task gives. `run_tasks` hands each task to one worker, exactly once, and answers what the tasks
//! gave, in the order of their numbers. A `Gate` stands between a task's run and its result; `OpenGate` lets each task
//! pass, and `MeetGate` holds some back until others have come, by which a test sees that workers run beside each other.
//!
//! Each worker has a thread with a stack of its own size, whatever the limit of the system is.
//!
//! The crate stands on `crossbeam_deque`, and on `core` for the size of a stack. Whoever has work that splits into numbered tasks stands on it.
#![tactic(auto)]

mod crew;
mod deque;
mod gate;
mod handles;
mod helper;
mod injector;
mod job;
mod place;
mod rule;
mod run;
mod settle;
mod threads;
mod workplace;

pub use gate::{Gate, MeetGate, OpenGate};
pub use job::Job;
pub use run::run_tasks;
