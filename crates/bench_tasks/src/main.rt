//! A benchmark of helper_tasks: one long task and 200 short ones, which together take as long as the long one, by 1, 2
//! and 4 workers. The long task comes first, so the short tasks that its worker fetched with it are run by others.
//!
//! Words: how many rounds a short task makes (100,000 if none is given), then `times`, or `schedules` and a number. With `times`
//! it prints how long each run took, and how many tasks each worker ran. With `schedules` it runs the tasks so often by 2 to 16
//! workers, which wait at a gate for some time after each task, and counts the runs that came to the same. Else the output depends on the
//! rounds alone.
#![tactic(auto)]

ghost use Rattle.std.specs.Prelude.{◌≤◌};

mod delays;
mod rounds;

use anyhow::{Context, Result};
use delays::{DelayGate, mixed};
use helper_tasks::{OpenGate, run_tasks};
use rounds::{Rounds, TASKS, in_order, no_tasks_yet, ran_by_all, sum};
use std::alloc::Global;
use std::env;
use std::rt::{Clock, Env};
use std::sync::Wait;
use std::thread::Threads;
use std::time::Instant;

#[derive(Debug, Drop)]
struct Options {
    rounds: u32,
    times: bool,
    schedules: Option<u32>,
}

fn read_options<R: Env + AllocGlobal>(rt: &R) -> Result<Options> {
    let words = env::args(rt)?;
    let mut options = Options {
        rounds: 100_000,
        times: false,
        schedules: None,
    };
    for word in words.skip(1) {
        if word.as_str() == "times" {
            options.times = true;
        } else if word.as_str() == "schedules" {
            options.schedules = Some(0);
        } else if options.schedules.is_some() {
            let schedules = word.as_str().parse::<u32>();
            options.schedules = Some(schedules.context("a number of schedules")?);
        } else {
            options.rounds = word.as_str().parse::<u32>().context("a number of rounds")?;
        }
    }
    Ok(options)
}

// Runs all tasks by n workers, and prints what came of it.
fn measure<R: Threads + Wait + Sync + Clock + Print>(
    rt: &R,
    alloc: Global,
    options: &Options,
    workers: usize,
) -> Result<()>
    requires { (1 ≤ workers) × (workers ≤ 16) }
{
    let job = Rounds {
        short: options.rounds,
    };
    let order = in_order(alloc, TASKS)?;
    let shares = no_tasks_yet(alloc, workers)?;
    let start = Instant::now(rt)?;
    let (outs, shares) = run_tasks(rt, alloc, order.as_slice(), shares, &job, &OpenGate)?;
    let time = start.elapsed(rt)?;
    let (count, total) = (outs.len(), sum(outs.as_slice()));
    println!(rt; "workers {workers}: {count} tasks, sum {total}")?;
    if options.times {
        let millis = time.as_millis();
        println!(rt; "{millis} milliseconds")?;
        for share in shares.iter() {
            let ran = share.len();
            println!(rt; "{ran} tasks")?;
        }
    }
    Ok(())
}

// Whether the tasks give in the schedule of this number what they give one after another, and as many were run as there are.
fn is_alike<R: Threads + Wait + Sync>(
    rt: &R,
    alloc: Global,
    job: &Rounds,
    alone: &[u64],
    schedule: u32,
) -> Result<bool> {
    let workers = 2 + (mixed(u64::from(schedule)) % 15) as usize;
    let order = in_order(alloc, TASKS)?;
    let shares = no_tasks_yet(alloc, workers)?;
    let gate = DelayGate::new(schedule);
    let (outs, shares) = run_tasks(rt, alloc, order.as_slice(), shares, job, &gate)?;
    Ok(outs.as_slice() == alone && ran_by_all(shares.as_slice()) == u64::from(TASKS))
}

// Runs all tasks in so many schedules, and prints how many came to what one worker comes to.
fn try_schedules<R: Threads + Wait + Sync + Print>(
    rt: &R,
    alloc: Global,
    rounds: u32,
    schedules: u32,
) -> Result<()> {
    let job = Rounds { short: rounds };
    let order = in_order(alloc, TASKS)?;
    let shares = no_tasks_yet(alloc, 1)?;
    let (alone, _) = run_tasks(rt, alloc, order.as_slice(), shares, &job, &OpenGate)?;
    let mut alike = 0u64;
    for schedule in 0..schedules {
        if is_alike(rt, alloc, &job, alone.as_slice(), schedule)? {
            alike = alike.wrapping_add(1);
        }
    }
    println!(rt; "{alike} of {schedules} schedules come to the same")?;
    Ok(())
}

fn main(rt: HostRuntime) -> Result<()> {
    let options = read_options(&rt)?;
    if let Some(schedules) = options.schedules {
        return try_schedules(&rt, rt.alloc(), options.rounds, schedules);
    }
    measure(&rt, rt.alloc(), &options, 1)?;
    measure(&rt, rt.alloc(), &options, 2)?;
    measure(&rt, rt.alloc(), &options, 4)
}
