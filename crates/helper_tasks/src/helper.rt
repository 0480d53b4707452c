// A worker: its handles, its share of the job, and what the tasks that it ran gave.
ghost use Rattle.std.specs.Prelude.{◌≡◌, [], IfOk};
ghost use Rattle.helper_tasks.specs.Rule.{dealt};

use crate::deque::Own;
use crate::handles::Handles;
use crate::injector::Fetcher;
use crate::rule::Numbering;
use std::alloc::{AllocError, Global};

/// What a task gave.
#[derive(Drop)]
pub struct Made<O> {
    pub task: u32,
    pub out: O,
}

/// A worker's share, and what the tasks that it ran gave, the first one first.
#[derive(Drop)]
pub struct WorkerDesk<S, O> {
    pub share: S,
    pub made: Vec<Made<O>>,
}

/// One worker.
#[derive(Drop)]
pub struct Helper<S, O, N: Numbering> {
    pub handles: Handles<N>,
    pub desk: WorkerDesk<S, O>,
    /// The tasks of the order from this place on are the worker's alone.
    pub rest: usize,
}

impl<S, O, N: Numbering> Helper<S, O, N> {
    /// A worker with an empty deque and no look, which has run nothing.
    pub fn new(
        alloc: Global,
        number: usize,
        share: S,
        fetcher: Fetcher,
        rest: usize,
    ) -> Result<Helper<S, O, N>, AllocError>
    where
        S: Drop,
        ensures handles { IfOk result (λ h. (h.handles.number ≡ number) × (h.handles.own.dealt ≡ dealt 64 [] []) × (h.handles.fetcher ≡ fetcher)) }
        ensures desk { IfOk result (λ h. (h.desk.share ≡ share) × (h.desk.made.items ≡ [])) }
        ensures rest { IfOk result (λ h. h.rest ≡ rest) }
    {
        let own = Own::new(alloc)?;
        let handles = Handles {
            number,
            own,
            looks: Vec::new(alloc),
            fetcher,
        };
        let desk = WorkerDesk {
            share,
            made: Vec::new(alloc),
        };
        Ok(Helper {
            handles,
            desk,
            rest,
        })
    }
}
