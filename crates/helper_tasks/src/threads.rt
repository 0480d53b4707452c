// The threads of the workers.
ghost use Rattle.std.specs.Prelude.{◌≡◌, ℕ, ◌<◌, IfOk};
ghost use Rattle.std.specs.Thread.{IsSend, IsSync};
ghost use Rattle.helper_tasks.specs.Count.{Each};
ghost use Rattle.helper_tasks.specs.Crew.{Paired, Served, StartsIn};

use crate::gate::Gate;
use crate::helper::Helper;
use crate::job::Job;
use crate::rule::Numbering;
use crate::workplace::Workplace;
use core::thread::Stack;
use std::alloc::AllocError;
use std::snapshot::Snapshot;
use std::sync::Wait;
use std::thread;
use std::thread::{Promise, Scope, Threads};

// The bytes of stack that a worker's thread has, whatever the limit of the system is.
const WORKER_STACK: usize = 32 * 1024 * 1024;

// What is known of a worker once its thread has ended.
struct Serving<'a, J: Job, G: Gate, N: Numbering> {
    place: &'a Workplace<'a, J, G, N>,
    order: &'a [u32],
    helper: Snapshot<Helper<J::Share, J::Out, N>>,
}

impl<'a, J: Job, G: Gate, N: Numbering> Drop for Serving<'a, J, G, N> {
    fn drop(self) {
        let Self {
            place: _,
            order: _,
            helper: _,
        } = self;
    }
}

impl<'a, J: Job, G: Gate, N: Numbering> Promise<Result<Helper<J::Share, J::Out, N>, AllocError>>
    for Serving<'a, J, G, N> {
    ghost use Rattle.helper_tasks.specs.Crew.{Served};

    ghost kept_by = { λ p r. Served (J.fits p.place.now.job.now)
        (J.gives p.place.now.job.now) J.ran p.place.now.queue.now p.order.now p.helper.value r };
}

// Lets each worker work, in a thread of its own where one can be made, and else once the others have begun.
fn serve_each<'s, E, J: Job, G: Gate, N: Numbering + Send + Sync, R: Threads + Wait + Sync>(
    scope: &Scope<'s, E>,
    rt: &'s R,
    place: &'s Workplace<'s, J, G, N>,
    order: &'s [u32],
    mut helpers: Vec<Helper<J::Share, J::Out, N>>,
) -> Result<Vec<Result<Helper<J::Share, J::Out, N>, AllocError>>, AllocError>
    requires sends { IsSend N.row × IsSend J.Out.row × IsSend J.Share.row }
    requires syncs { IsSync J.row × IsSync G.row × IsSync N.row × IsSync R.row }
    requires numbered { N.bound ≡ J.tasks place.now.job.now }
    requires tasks { Each (λ (x : ℕ). x < N.bound) order.now }
    requires helpers { Each (StartsIn (J.fits place.now.job.now) (J.gives place.now.job.now) place.now.queue.now order.now) helpers.items }
    ensures { IfOk result (λ v. Paired (Served (J.fits place.now.job.now)
        (J.gives place.now.job.now) J.ran place.now.queue.now order.now) helpers.items v.items) }
{
    let Some(helper) = helpers.pop() else {
        return Ok(Vec::new(place.alloc));
    };
    let promise = Serving {
        place,
        order,
        helper: Snapshot::of(&helper),
    };
    let work = move || -> Result<Helper<J::Share, J::Out, N>, AllocError>
        requires { (N.bound ≡ J.tasks place.now.job.now) × Each (λ (x : ℕ). x < N.bound) order.now
            × StartsIn (J.fits place.now.job.now) (J.gives place.now.job.now) place.now.queue.now order.now helper }
        ensures { Served (J.fits place.entry.now.job.now)
            (J.gives place.entry.now.job.now) J.ran place.entry.now.queue.now order.entry.now helper result }
    { place.serve(rt, order, helper) };
    let started = Stack::new()
        .stack_size(WORKER_STACK)
        .spawn_scoped_with(scope, promise, work);
    let others = serve_each(scope, rt, place, order, helpers);
    let served = match started {
        Ok(thread) => thread.join(rt),
        Err(refused) => (refused.value)(),
    };
    let mut all = others?;
    all.push(served)?;
    Ok(all)
}

/// Lets each worker work, in a thread of its own where one can be made, and else in this one.
pub fn serve_all<J: Job, G: Gate, N: Numbering + Send + Sync, R: Threads + Wait + Sync>(
    rt: &R,
    place: &Workplace<'_, J, G, N>,
    order: &[u32],
    helpers: Vec<Helper<J::Share, J::Out, N>>,
) -> Result<Vec<Result<Helper<J::Share, J::Out, N>, AllocError>>, AllocError>
    requires numbered { N.bound ≡ J.tasks place.now.job.now }
    requires tasks { Each (λ (x : ℕ). x < N.bound) order.now }
    requires helpers { Each (StartsIn (J.fits place.now.job.now) (J.gives place.now.job.now) place.now.queue.now order.now) helpers.items }
    ensures { IfOk result (λ v. Paired (Served (J.fits place.now.job.now)
        (J.gives place.now.job.now) J.ran place.now.queue.now order.now) helpers.items v.items) }
{
    thread::scope(
        thread::scope_env(),
        rt,
        |scope| -> Result<Vec<Result<Helper<J::Share, J::Out, N>, AllocError>>, AllocError>
            requires { IsSend N.row × IsSend J.Out.row × IsSend J.Share.row × IsSync J.row × IsSync G.row × IsSync N.row × IsSync R.row
                × (N.bound ≡ J.tasks place.now.job.now) × Each (λ (x : ℕ). x < N.bound) order.now
                × Each (StartsIn (J.fits place.now.job.now) (J.gives place.now.job.now) place.now.queue.now order.now) helpers.items }
            ensures { IfOk result (λ v. Paired (Served (J.fits place.entry.now.job.now)
                (J.gives place.entry.now.job.now) J.ran place.entry.now.queue.now order.entry.now) helpers.items v.items) }
        { serve_each(scope, rt, place, order, helpers) },
    )
}
