//! The first passes over the files of a command, each by one of several workers.

ghost use Rattle.std.specs.Prelude.{◌≡◌, ℕ, ◌≤◌, ◌<◌, length, IfOk};
ghost use Rattle.helper_tasks.specs.Jobs.{IsOrderOf};
ghost use Rattle.session_words.specs.Asked as asked;
ghost use Rattle.compile_session.specs.Orders.{AreBegunIn};
ghost use Rattle.compile_session.specs.Starts.{AreStarts, CanBeRead, IsStartAt};

use crate::start::{FileStart, start_of};
use crate::workers::{Worker, idle_workers};
use helper_tasks::{Gate, Job, run_tasks};
use session_words::{FileJob, Want};
use std::alloc::{AllocError, Global};
use std::sync::Wait;
use std::thread::Threads;

/// The first passes over files as tasks: the task of a number makes that over the file of that number.
#[derive(Drop)]
struct FirstPasses<'a> {
    want: &'a Want,
    reads: &'a [Option<Vec<u8>>],
    count: u32,
}

impl<'a> Job for FirstPasses<'a> {
    ghost use Rattle.session_words.specs.Asked as asked;
    ghost use Rattle.compile_session.specs.Starts.{CanBeRead, IsStartAt};

    type Out = FileStart;

    type Share = Worker;

    ghost tasks = { λ passes. passes.count };

    ghost gives = { λ passes number start. IsStartAt (asked.wanted passes.want.now) passes.reads.now number start };

    ghost fits = { λ passes worker. CanBeRead passes.reads.now passes.count };

    ghost ran = { λ worker. worker.answered.items };

    fn run(&self, alloc: Global, task: u32, worker: &mut Worker) -> Result<FileStart, AllocError> {
        let start = self.start(alloc, task)?;
        worker.answered.push(task)?;
        Ok(start)
    }
}

impl<'a> FirstPasses<'a> {
    /// The first pass over the file of this number.
    fn start(&self, alloc: Global, number: u32) -> Result<FileStart, AllocError>
        requires number { number < self.now.count }
        requires can { CanBeRead self.now.reads.now self.now.count }
        ensures { IfOk result (IsStartAt (asked.wanted self.now.want.now) self.now.reads.now number) }
    {
        let start = start_of(alloc, self.want, &self.reads[number as usize])?;
        Ok(start)
    }
}

/// The first passes over the first `count` files, of which these bytes were read, by as many workers as the command asks for, and no
/// more than there are files, which are handed them in the order that it asks for.
pub(crate) fn file_starts<R: Threads + Wait + Sync, G: Gate>(
    rt: &R,
    alloc: Global,
    job: &FileJob,
    reads: &[Option<Vec<u8>>],
    count: u32,
    order: &[u32],
    gate: &G,
) -> Result<Vec<FileStart>, AllocError>
    requires can { CanBeRead reads.now count }
    requires order { IsOrderOf count order.now }
    requires begun { AreBegunIn job.now.order reads.now count order.now }
    requires workers { (1 ≤ job.now.workers) × (job.now.workers ≤ 16) }
    ensures { IfOk result (λ starts. AreStarts (asked.wanted job.now.want) reads.now count starts.items) }
{
    let workers = idle_workers(alloc, job.workers.min(count).max(1))?;
    let passes = FirstPasses {
        want: &job.want,
        reads,
        count,
    };
    let (starts, _) = run_tasks(rt, alloc, order, workers, &passes, gate)?;
    Ok(starts)
}
