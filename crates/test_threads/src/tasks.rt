// Runs at a job whose task k gives k * k, and the gate at which calls meet.
ghost use Rattle.std.specs.Prelude.{◌≡◌, ◌*◌, ◌<◌, ◌≤◌, ◌^◌, IfOk, length};
ghost use Rattle.helper_tasks.specs.Jobs.{IsOrderOf};

use helper_tasks::{Gate, Job, MeetGate, OpenGate, run_tasks};
use std::alloc::{AllocError, Global};
use std::sync::Wait;
use std::test::*;
use std::thread::Threads;

// Task k gives k * k, and one task may be refused. A share is the list of the tasks that were run with it.
#[derive(Drop)]
struct Squares {
    count: u32,
    refused: Option<u32>,
}

impl Job for Squares {
    ghost use Rattle.std.specs.Prelude.{◌≡◌, ◌*◌};

    type Out = u64;

    type Share = Vec<u32>;

    ghost tasks = { λ j. j.count };

    ghost gives = { λ j k out. out ≡ k * k };

    ghost fits = { λ j s. Unit {0} };

    ghost ran = { λ s. s.items };

    fn run(&self, _alloc: Global, task: u32, share: &mut Vec<u32>) -> Result<u64, AllocError> {
        if self.refused == Some(task) {
            return Err(AllocError);
        }
        share.push(task)?;
        Ok(u64::from(task) * u64::from(task))
    }
}

// The order in which the last task comes first.
fn last_first(alloc: Global, count: u32) -> Result<Vec<u32>, AllocError>
    ensures { IfOk result (λ v. IsOrderOf count v.items) }
{
    let mut order = Vec::new(alloc);
    let mut left = count;
    while left > 0 {
        left -= 1;
        order.push(left)?;
    }
    Ok(order)
}

fn no_tasks_yet(alloc: Global, workers: usize) -> Result<Vec<Vec<u32>>, AllocError>
    ensures { IfOk result (λ v. length v.items ≡ workers) }
{
    let mut shares = Vec::new(alloc);
    for _ in 0..workers {
        shares.push(Vec::new(alloc))?;
    }
    Ok(shares)
}

// The outs, and the tasks of all shares in their order.
fn run_squares<R: Threads + Wait + Sync>(
    rt: &R,
    alloc: Global,
    workers: usize,
    job: &Squares,
    gate: &impl Gate,
) -> Result<(Vec<u64>, Vec<u32>), AllocError>
    requires { (1 ≤ workers) × (workers ≤ 16) }
{
    let order = last_first(alloc, job.count)?;
    let shares = no_tasks_yet(alloc, workers)?;
    let (outs, shares) = run_tasks(rt, alloc, order.as_slice(), shares, job, gate)?;
    let mut tasks = Vec::new(alloc);
    for share in shares.iter() {
        tasks.extend_from_slice(share.as_slice())?;
    }
    tasks.sort()?;
    Ok((outs, tasks))
}

// Runs all squares below `count`: each stands at its place, and each task was run once.
fn are_right<R: Threads + Wait + Sync>(
    rt: &R,
    alloc: Global,
    workers: usize,
    count: u32,
) -> Result<bool, AllocError>
    requires { (1 ≤ workers) × (workers ≤ 16) }
{
    let job = Squares {
        count,
        refused: None,
    };
    let (outs, tasks) = run_squares(rt, alloc, workers, &job, &OpenGate)?;
    let mut root = 0u64;
    for out in outs.iter() {
        if Some(*out) != root.checked_mul(root) {
            return Ok(false);
        }
        root = root.wrapping_add(1);
    }
    let mut next = 0u64;
    for task in tasks.iter() {
        if u64::from(*task) != next {
            return Ok(false);
        }
        next = next.wrapping_add(1);
    }
    Ok(root == u64::from(count) && next == u64::from(count))
}

#[test]
fn squares_stand_in_their_places(rt: HostRuntime) -> Result<(), Fail> {
    for count in [0, 1, 7, 64, 10_000] {
        assert!(rt; are_right(&rt, rt.alloc(), 1, count)?);
        assert!(rt; are_right(&rt, rt.alloc(), 2, count)?);
        assert!(rt; are_right(&rt, rt.alloc(), 16, count)?);
    }
    Ok(())
}

#[test]
fn a_refused_task_ends_the_call(rt: HostRuntime) -> Result<(), Fail> {
    let job = Squares {
        count: 64,
        refused: Some(5),
    };
    assert!(rt; run_squares(&rt, rt.alloc(), 1, &job, &OpenGate).is_err());
    assert!(rt; run_squares(&rt, rt.alloc(), 4, &job, &OpenGate).is_err());
    Ok(())
}

#[test]
fn two_workers_meet(rt: HostRuntime) -> Result<(), Fail> {
    let job = Squares {
        count: 64,
        refused: None,
    };
    let gate = MeetGate::new(0, 2, 100_000_000);
    let (outs, tasks) = run_squares(&rt, rt.alloc(), 2, &job, &gate)?;
    assert!(rt; outs.len() == 64 && tasks.len() == 64 && gate.met());
    Ok(())
}

#[test]
fn calls_of_the_gate(rt: HostRuntime) -> Result<(), Fail> {
    let none_needed = MeetGate::new(3, 0, 5);
    assert!(rt; none_needed.met());
    let second_of_two = MeetGate::new(1, 1, 0);
    second_of_two.hold(7);
    let one = second_of_two.met();
    second_of_two.hold(7);
    let two = second_of_two.met();
    second_of_two.hold(7);
    assert!(rt; !one && two && second_of_two.met());
    let alone = MeetGate::new(0, 2, 1000);
    alone.hold(0);
    let one = alone.met();
    alone.hold(1);
    assert!(rt; !one && !alone.met());
    OpenGate.hold(0);
    Ok(())
}
