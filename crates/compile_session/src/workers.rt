//! The files of a command, each answered by one of several workers.

ghost use Rattle.std.specs.Prelude.{◌≡◌, ℕ, ◌≤◌, ◌<◌, ◌^◌, false, length, IfOk};
ghost use Rattle.helper_tasks.specs.Jobs.{IsOrderOf};
ghost use Rattle.session_outside.specs.Loops.{HaveAtMost};
ghost use Rattle.session_specs.specs.Answer.{most_bytes};
ghost use Rattle.session_specs.specs.Compiled.{shows_scripts};
ghost use Rattle.session_words.specs.Asked as asked;
ghost use Rattle.compile_session.specs.Orders.{AreBegunIn};
ghost use Rattle.compile_session.specs.Workers.{CanBeAnswered, SettlesFile, SettleFiles};

use crate::answer::FileAnswer;
use crate::file::answer_of;
use helper_tasks::{Gate, Job, run_tasks};
use session_words::FileJob;
use std::alloc::{AllocError, Global};
use std::sync::Wait;
use std::thread::Threads;

/// The files of a command as tasks: the task of a number gives what is printed for the file of that number.
#[derive(Drop)]
struct FileTasks<'a> {
    job: &'a FileJob,
    reads: &'a [Option<Vec<u8>>],
    count: u32,
}

/// What a worker has to itself: the numbers of the files that it answered.
#[derive(Drop)]
pub(crate) struct Worker {
    pub answered: Vec<u32>,
}

impl<'a> Job for FileTasks<'a> {
    ghost use Rattle.session_words.specs.Asked as asked;
    ghost use Rattle.std.specs.Prelude.{◌≡◌, false};
    ghost use Rattle.session_specs.specs.Compiled.{shows_scripts};
    ghost use Rattle.compile_session.specs.Workers.{CanBeAnswered, SettlesFile};

    type Out = FileAnswer;

    type Share = Worker;

    ghost tasks = { λ tasks. tasks.count };

    ghost gives = { λ tasks number answer. SettlesFile (asked.job tasks.job.now) tasks.reads.now number answer };

    ghost fits = { λ tasks worker. CanBeAnswered tasks.job.now tasks.reads.now tasks.count × (shows_scripts tasks.job.now.command ≡ false) };

    ghost ran = { λ worker. worker.answered.items };

    fn run(&self, alloc: Global, task: u32, worker: &mut Worker) -> Result<FileAnswer, AllocError> {
        let answer = self.answer(alloc, task)?;
        worker.answered.push(task)?;
        Ok(answer)
    }
}

impl<'a> FileTasks<'a> {
    /// What is printed for the file of this number.
    fn answer(&self, alloc: Global, number: u32) -> Result<FileAnswer, AllocError>
        requires can { CanBeAnswered self.now.job.now self.now.reads.now self.now.count }
        requires number { number < self.now.count }
        requires plain { shows_scripts self.now.job.now.command ≡ false }
        ensures { IfOk result (SettlesFile (asked.job self.now.job.now) self.now.reads.now number) }
    {
        let name = &self.job.files[number as usize];
        let read = &self.reads[number as usize];
        let answer = answer_of(alloc, self.job, name.as_str(), read)?;
        Ok(answer)
    }
}

/// n workers, none of which has answered a file.
pub(crate) fn idle_workers(alloc: Global, count: u32) -> Result<Vec<Worker>, AllocError>
    ensures { IfOk result (λ workers. length workers.items ≡ count) }
{
    let mut workers = Vec::new(alloc);
    for _ in 0..count {
        let answered = Vec::new(alloc);
        workers.push(Worker { answered })?;
    }
    Ok(workers)
}

/// What is printed for each of the first `count` files of a command, of which these bytes were read. They are answered by as many
/// workers as the command asks for, and no more than there are files, which are handed them in the order that it asks for.
pub(crate) fn file_answers<R: Threads + Wait + Sync, G: Gate>(
    rt: &R,
    alloc: Global,
    job: &FileJob,
    reads: &[Option<Vec<u8>>],
    count: u32,
    order: &[u32],
    gate: &G,
) -> Result<Vec<FileAnswer>, AllocError>
    requires can { CanBeAnswered job.now reads.now count }
    requires order { IsOrderOf count order.now }
    requires begun { AreBegunIn job.now.order reads.now count order.now }
    requires plain { shows_scripts job.now.command ≡ false }
    requires workers { (1 ≤ job.now.workers) × (job.now.workers ≤ 16) }
    ensures { IfOk result (λ answers. SettleFiles (asked.job job.now) reads.now count answers.items) }
{
    let workers = idle_workers(alloc, job.workers.min(count).max(1))?;
    let tasks = FileTasks { job, reads, count };
    let (answers, _) = run_tasks(rt, alloc, order, workers, &tasks, gate)?;
    Ok(answers)
}
