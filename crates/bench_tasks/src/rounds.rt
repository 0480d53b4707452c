// The job: each task makes a number of rounds of one multiplication and one addition.
ghost use Rattle.std.specs.Prelude.{◌≡◌, IfOk, length};
ghost use Rattle.helper_tasks.specs.Jobs.{IsOrderOf};

use helper_tasks::Job;
use std::alloc::{AllocError, Global};

/// One long task and 200 short ones.
pub const TASKS: u32 = 201;

/// Task 0 makes as many rounds as the 200 others together.
#[derive(Drop)]
pub struct Rounds {
    /// The rounds of a short task.
    pub short: u32,
}

impl Job for Rounds {
    ghost use Rattle.bench_tasks.specs.declared.rounds.TheConstants.{TASKS};

    type Out = u64;

    type Share = Vec<u32>;

    ghost tasks = { λ j. TASKS };

    ghost gives = { λ j k out. Unit {0} };

    ghost fits = { λ j s. Unit {0} };

    ghost ran = { λ s. s.items };

    fn run(&self, _alloc: Global, task: u32, share: &mut Vec<u32>) -> Result<u64, AllocError> {
        share.push(task)?;
        let times = if task == 0 { TASKS - 1 } else { 1 };
        Ok(turned(task, u64::from(self.short) * u64::from(times)))
    }
}

// The number that n rounds make of a seed.
fn turned(seed: u32, rounds: u64) -> u64 {
    let mut state = u64::from(seed);
    for _ in 0..rounds {
        state = state
            .wrapping_mul(6_364_136_223_846_793_005)
            .wrapping_add(1_442_695_040_888_963_407);
    }
    state
}

/// The tasks in the order of their numbers.
pub fn in_order(alloc: Global, count: u32) -> Result<Vec<u32>, AllocError>
    ensures { IfOk result (λ v. IsOrderOf count v.items) }
{
    let mut order = Vec::new(alloc);
    for task in 0..count {
        order.push(task)?;
    }
    Ok(order)
}

/// A share for each worker.
pub fn no_tasks_yet(alloc: Global, workers: usize) -> Result<Vec<Vec<u32>>, AllocError>
    ensures { IfOk result (λ v. length v.items ≡ workers) }
{
    let mut shares = Vec::new(alloc);
    for _ in 0..workers {
        shares.push(Vec::new(alloc))?;
    }
    Ok(shares)
}

/// The sum modulo 2^64.
pub fn sum(outs: &[u64]) -> u64 {
    outs.iter()
        .fold(0, |total, out| u64::wrapping_add(total, *out))
}

/// How many tasks the workers ran together.
pub fn ran_by_all(shares: &[Vec<u32>]) -> u64 {
    shares.iter().fold(
        0,
        |total, share| u64::wrapping_add(total, share.len() as u64),
    )
}
