// What all workers of one call share, and how one of them works.
ghost use Rattle.std.specs.Prelude.{◌≡◌, ◌<◌, ◌≤◌, [], ◌∷◌, ◌++◌, IfOk, MatchOption, length, drop, ℕ, List};
ghost use Rattle.helper_tasks.specs.Count.{Each};
ghost use Rattle.helper_tasks.specs.Desks.{tasks_of, InOrder, Lists, Ready, Works};

use crate::gate::Gate;
use crate::helper::{Helper, Made, WorkerDesk};
use crate::injector::Queue;
use crate::job::Job;
use crate::rule::Numbering;
use std::alloc::{AllocError, Global};
use std::sync::Wait;

// The most tasks that a worker takes from the injector at once.
const BATCH: usize = 8;

/// What all workers of one call share.
pub struct Workplace<'a, J: Job, G: Gate, N: Numbering> {
    pub alloc: Global,
    pub job: &'a J,
    pub gate: &'a G,
    pub queue: &'a Queue<N>,
}

impl<'a, J: Job, G: Gate, N: Numbering> Drop for Workplace<'a, J, G, N> {
    fn drop(self) {
        let Self {
            alloc: _,
            job: _,
            gate: _,
            queue: _,
        } = self;
    }
}

impl<'a, J: Job, G: Gate, N: Numbering> Workplace<'a, J, G, N> {
    /// Runs a task with the desk's share, and keeps what it gave.
    pub fn run(&self, desk: &mut WorkerDesk<J::Share, J::Out>, task: u32) -> Result<(), AllocError>
        requires numbered { N.bound ≡ J.tasks self.now.job.now }
        requires task { task < N.bound }
        requires desk { InOrder (J.fits self.now.job.now) (J.gives self.now.job.now) desk.old }
        ensures desk { IfOk result (λ _. InOrder (J.fits self.now.job.now) (J.gives self.now.job.now) desk.new) }
        ensures lists { IfOk result (λ _. (start : List ℕ) → Lists J.ran start desk.old → Lists J.ran start desk.new) }
        ensures made { IfOk result (λ _. tasks_of desk.new.made.items ≡ tasks_of desk.old.made.items ++ task ∷ []) }
    {
        let out = self.job.run(self.alloc, task, &mut desk.share)?;
        self.gate.hold(task);
        desk.made.push(Made { task, out })?;
        Ok(())
    }

    // Runs a task that the worker has in hand.
    fn run_one(&self, helper: &mut Helper<J::Share, J::Out, N>, task: u32) -> Result<(), AllocError>
        requires numbered { N.bound ≡ J.tasks self.now.job.now }
        requires task { task < N.bound }
        requires ready { Ready (J.fits self.now.job.now) (J.gives self.now.job.now) self.now.queue.now helper.old }
        ensures { IfOk result (λ _. Works (J.fits self.now.job.now)
            (J.gives self.now.job.now) J.ran self.now.queue.now helper.old helper.new (task ∷ []) []) }
    {
        self.run(&mut helper.desk, task)
    }

    // Puts a task into the worker's own deque, or runs it where the deque refuses it.
    fn keep(&self, helper: &mut Helper<J::Share, J::Out, N>, task: u32) -> Result<(), AllocError>
        requires numbered { N.bound ≡ J.tasks self.now.job.now }
        requires task { task < N.bound }
        requires ready { Ready (J.fits self.now.job.now) (J.gives self.now.job.now) self.now.queue.now helper.old }
        ensures { IfOk result (λ _. Works (J.fits self.now.job.now)
            (J.gives self.now.job.now) J.ran self.now.queue.now helper.old helper.new (task ∷ []) []) }
    {
        match helper.handles.push(task) {
            Ok(()) => Ok(()),
            Err(task) => self.run_one(helper, task),
        }
    }

    // Takes a batch from the injector: the first task is the answer, and the others are kept.
    fn fetch(
        &self,
        rt: &impl Wait,
        helper: &mut Helper<J::Share, J::Out, N>,
    ) -> Result<Option<u32>, AllocError>
        requires numbered { N.bound ≡ J.tasks self.now.job.now }
        requires ready { Ready (J.fits self.now.job.now) (J.gives self.now.job.now) self.now.queue.now helper.old }
        ensures { IfOk result (λ r. MatchOption r (Works (J.fits self.now.job.now)
            (J.gives self.now.job.now) J.ran self.now.queue.now helper.old helper.new [] []) (λ x. (x < N.bound)
            × Works (J.fits self.now.job.now) (J.gives self.now.job.now) J.ran self.now.queue.now helper.old helper.new [] (x ∷ []))) }
    {
        let Some(first) = helper.handles.fetch(rt, self.queue) else {
            return Ok(None);
        };
        for _ in 1..BATCH {
            let Some(task) = helper.handles.fetch(rt, self.queue) else {
                break;
            };
            self.keep(helper, task)?;
        }
        Ok(Some(first))
    }

    // The next task: of the worker's own deque, else of the injector, else of another worker's deque.
    fn next(
        &self,
        rt: &impl Wait,
        helper: &mut Helper<J::Share, J::Out, N>,
    ) -> Result<Option<u32>, AllocError>
        requires numbered { N.bound ≡ J.tasks self.now.job.now }
        requires ready { Ready (J.fits self.now.job.now) (J.gives self.now.job.now) self.now.queue.now helper.old }
        ensures { IfOk result (λ r. MatchOption r (Works (J.fits self.now.job.now)
            (J.gives self.now.job.now) J.ran self.now.queue.now helper.old helper.new [] []) (λ x. (x < N.bound)
            × Works (J.fits self.now.job.now) (J.gives self.now.job.now) J.ran self.now.queue.now helper.old helper.new [] (x ∷ []))) }
    {
        if let Some(task) = helper.handles.pop() {
            return Ok(Some(task));
        }
        if let Some(task) = self.fetch(rt, helper)? {
            return Ok(Some(task));
        }
        Ok(helper.handles.steal(rt))
    }

    // Works until there is no task: the worker's own deque was empty, and then the injector and each other deque.
    fn work(
        &self,
        rt: &impl Wait,
        helper: &mut Helper<J::Share, J::Out, N>,
    ) -> Result<(), AllocError>
        requires numbered { N.bound ≡ J.tasks self.now.job.now }
        requires ready { Ready (J.fits self.now.job.now) (J.gives self.now.job.now) self.now.queue.now helper.old }
        ensures { IfOk result (λ _. Works (J.fits self.now.job.now) (J.gives self.now.job.now) J.ran self.now.queue.now helper.old helper.new [] []) }
    {
        for _ in rt.forever() {
            let Some(task) = self.next(rt, helper)? else {
                return Ok(());
            };
            self.run_one(helper, task)?;
        }
        unreachable!()
    }

    // Runs these tasks, which stand in no deque.
    fn run_each(
        &self,
        helper: &mut Helper<J::Share, J::Out, N>,
        tasks: &[u32],
    ) -> Result<(), AllocError>
        requires numbered { N.bound ≡ J.tasks self.now.job.now }
        requires tasks { Each (λ (x : ℕ). x < N.bound) tasks.now }
        requires ready { Ready (J.fits self.now.job.now) (J.gives self.now.job.now) self.now.queue.now helper.old }
        ensures { IfOk result (λ _. Works (J.fits self.now.job.now)
            (J.gives self.now.job.now) J.ran self.now.queue.now helper.old helper.new tasks.now []) }
    {
        for task in tasks {
            self.run_one(helper, *task)?;
        }
        Ok(())
    }

    /// What one worker does, from its start to its end.
    pub fn serve(
        &self,
        rt: &impl Wait,
        order: &[u32],
        mut helper: Helper<J::Share, J::Out, N>,
    ) -> Result<Helper<J::Share, J::Out, N>, AllocError>
        requires numbered { N.bound ≡ J.tasks self.now.job.now }
        requires rest { helper.rest ≤ length order.now }
        requires tasks { Each (λ (x : ℕ). x < N.bound) order.now }
        requires ready { Ready (J.fits self.now.job.now) (J.gives self.now.job.now) self.now.queue.now helper }
        ensures { IfOk result (λ h. Works (J.fits self.now.job.now) (J.gives self.now.job.now) J.ran self.now.queue.now helper h
            (drop helper.rest order.now) []) }
    {
        self.work(rt, &mut helper)?;
        let rest = &order[helper.rest..];
        self.run_each(&mut helper, rest)?;
        Ok(helper)
    }
}
