// The call that runs a job's tasks.
ghost use Rattle.std.specs.Prelude.{◌≡◌, ◌<◌, ◌≤◌, ◌^◌, All, IfOk, Ok, length, map};
ghost use Rattle.helper_tasks.specs.Jobs.{GainedOnce, GivesEach, IsOrderOf};

use crate::crew::staff;
use crate::gate::Gate;
use crate::injector::Queue;
use crate::job::Job;
use crate::place::collect;
use crate::rule::Numbering;
use crate::threads::serve_all;
use crate::workplace::Workplace;
use std::alloc::{AllocError, Global};
use std::marker::Brand;
use std::sync::Wait;
use std::thread::Threads;

// The values, where none is an error.
fn all_ok<X: Drop>(alloc: Global, results: Vec<Result<X, AllocError>>) -> Result<Vec<X>, AllocError>
    ensures { IfOk result (λ v. map (λ x. Ok x) v.items ≡ results.items) }
{
    let mut values = Vec::new(alloc);
    for one in results {
        match one {
            Ok(value) => values.push(value)?,
            Err(error) => return Err(error),
        }
    }
    Ok(values)
}

/// Runs all tasks of a job, with a worker for each share. The first tasks of the order are begun first.
///
/// A worker takes tasks from its own deque, else up to 8 from the injector, else one from another worker's deque. It ends
/// where all of these were empty, each at a moment of its own. Each worker has a thread of its own where one can be made,
/// and else the caller works. The only refusal is for want of memory: a task that is refused ends the call once all
/// threads have ended. That a call returns is not said, nor how long it takes.
pub fn run_tasks<J: Job, G: Gate, R: Threads + Wait + Sync>(
    rt: &R,
    alloc: Global,
    order: &[u32],
    shares: Vec<J::Share>,
    job: &J,
    gate: &G,
) -> Result<(Vec<J::Out>, Vec<J::Share>), AllocError>
    requires workers { (1 ≤ length shares.items) × (length shares.items ≤ 16) }
    requires fits { All (J.fits job.now) shares.items }
    requires order { IsOrderOf (J.tasks job.now) order.now × (length order.now < 2 ^ 32) }
    ensures outs { IfOk result (λ r. (length r.0.items ≡ J.tasks job.now) × GivesEach (J.gives job.now) r.0.items) }
    ensures count { IfOk result (λ r. length r.1.items ≡ length shares.items) }
    ensures shares { IfOk result (λ r. All (J.fits job.now) r.1.items) }
    ensures lists { IfOk result (λ r. GainedOnce J.ran shares.items r.1.items (J.tasks job.now)) }
{
    run_numbered::<J, G, R, Brand>(rt, alloc, order, shares, job, gate)
}

// The same, where the number of tasks is the bound of the rule.
fn run_numbered<J: Job, G: Gate, R: Threads + Wait + Sync, N: Numbering + Send + Sync>(
    rt: &R,
    alloc: Global,
    order: &[u32],
    shares: Vec<J::Share>,
    job: &J,
    gate: &G,
) -> Result<(Vec<J::Out>, Vec<J::Share>), AllocError>
    requires numbered { N.bound ≡ J.tasks job.now }
    requires workers { (0 < length shares.items) × (length shares.items ≤ 16) }
    requires fits { All (J.fits job.now) shares.items }
    requires order { IsOrderOf (J.tasks job.now) order.now }
    ensures outs { IfOk result (λ r. (length r.0.items ≡ J.tasks job.now) × GivesEach (J.gives job.now) r.0.items) }
    ensures count { IfOk result (λ r. length r.1.items ≡ length shares.items) }
    ensures shares { IfOk result (λ r. All (J.fits job.now) r.1.items) }
    ensures lists { IfOk result (λ r. GainedOnce J.ran shares.items r.1.items (J.tasks job.now)) }
{
    let (queue, mut all) = Queue::<N>::new(alloc)?;
    let helpers = staff(rt, alloc, order, shares, &queue, &mut all)?;
    let place = Workplace {
        alloc,
        job,
        gate,
        queue: &queue,
    };
    let helpers = all_ok(alloc, serve_all(rt, &place, order, helpers)?)?;
    let desks = place.settle(rt, helpers, all)?;
    collect(alloc, order.len(), desks)
}
