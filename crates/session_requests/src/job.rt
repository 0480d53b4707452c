//! Requests as tasks, which workers run side by side.

ghost use Rattle.std.specs.Prelude.{◌≡◌, ◌≤◌, ◌<◌, ◌^◌, length, IfOk};
ghost use Rattle.std.specs.List.{All};
ghost use Rattle.session_requests.specs.Hands.{Fits};
ghost use Rattle.session_requests.specs.Works.{AreWorks};

use crate::hand::Hand;
use crate::numbers::rising;
use crate::requests::Request;
use crate::work::ScriptWork;
use helper_tasks::{Gate, Job, run_tasks};
use std::alloc::{AllocError, Global};
use std::sync::Wait;
use std::thread::Threads;
use stencil_board::Sources;

/// Requests as tasks: the task of a number makes the request at that place. What it gives is that a worker knows more.
#[derive(Drop)]
struct Requests<'a, N: Sources> {
    works: &'a [Option<ScriptWork<'a, N>>],
    requests: &'a [Request],
    count: u32,
}

impl<'a, N: Sources + Send + Sync> Job for Requests<'a, N> {
    ghost use Rattle.std.specs.Prelude.{length, ◌≤◌};
    ghost use Rattle.session_requests.specs.Hands.{Fits};
    ghost use Rattle.session_requests.specs.Works.{AreWorks};

    type Out = ();

    type Share = Hand<N>;

    ghost tasks = { λ job. job.count };

    ghost gives = { λ job task out. Unit {0} };

    ghost fits = { λ job hand. (job.count ≤ length job.requests.now) × AreWorks N.files job.works.now × Fits job.works.now hand };

    ghost ran = { λ hand. hand.ran };

    fn run(&self, alloc: Global, task: u32, hand: &mut Hand<N>) -> Result<(), AllocError> {
        hand.request(alloc, self.works, self.requests[task as usize])?;
        hand.note_task(task)
    }
}

/// How many tasks there are: one for each request, if they can be numbered.
fn task_count(requests: &[Request]) -> u32
    ensures { result ≤ length requests.now }
{
    requests.len().min(u32::MAX as usize) as u32
}

/// Makes these requests, the first ones first, by as many workers as there are hands. The hands come back, each knowing what it
/// asked for.
pub fn request_all<'a, R: Threads + Wait + Sync, G: Gate, N: Sources + Send + Sync>(
    rt: &R,
    alloc: Global,
    works: &'a [Option<ScriptWork<'a, N>>],
    requests: &'a [Request],
    hands: Vec<Hand<N>>,
    gate: &G,
) -> Result<Vec<Hand<N>>, AllocError>
    requires works { AreWorks N.files works.now }
    requires fit { All (Fits works.now) hands.items }
    requires workers { (1 ≤ length hands.items) × (length hands.items ≤ 16) }
    ensures count { IfOk result (λ known. length known.items ≡ length hands.items) }
    ensures fit { IfOk result (λ known. All (Fits works.now) known.items) }
{
    let count = task_count(requests);
    let order = rising(alloc, count)?;
    let job = Requests {
        works,
        requests,
        count,
    };
    let (_, hands) = run_tasks(rt, alloc, &order, hands, &job, gate)?;
    Ok(hands)
}
