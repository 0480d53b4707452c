//! A benchmark of the table of atoms: it interns names that each stand twice in a list, by one thread
//! and by four, and prints how many atoms and probes that took. With the word `rates` it also prints how
//! many names a second were interned.
//!
//! The names are hashed by SipHash-1-3 with keys that are 0. Words: how many different names (100,000 if none is
//! given), then `rates`. Without `rates` the output
//! depends on the words alone, since the probes of all texts together are the same in every order.
#![tactic(auto)]

ghost use Rattle.std.specs.Prelude.{◌≤◌};

mod names;
mod workers;

use anyhow::{Context, Result, ensure};
use atom_table::{AtomTable, TextList};
use names::{Spelling, doubled_names};
use std::alloc::Global;
use std::hash::RandomState;
use std::random::RandomSource;
use std::rt::{Clock, Env};
use std::thread::Threads;
use std::time::{Duration, Instant};
use std::{env, io};
use workers::{Tally, counted, interned};

/// So that the list of names, each twice, stays below 2^28.
const MOST_NAMES: u32 = 100_000_000;

#[derive(Debug, Drop)]
struct Options {
    names: u32,
    rates: bool,
    ghost few: { names ≤ 100000000 },
}

/// Random bytes that are all 0, so that the probes are the same in every run.
struct Zeros;

impl RandomSource for Zeros {
    fn fill_bytes(&self, buf: &mut [u8]) -> io::Result<()> {
        buf.fill(0);
        Ok(())
    }
}

fn read_options<R: Env + AllocGlobal>(rt: &R) -> Result<Options> {
    let words = env::args(rt)?;
    let mut names = 100_000;
    let mut rates = false;
    for word in words.skip(1) {
        if word.as_str() == "rates" {
            rates = true;
        } else {
            names = word.as_str().parse::<u32>().context("a number of names")?;
        }
    }
    ensure!(names <= MOST_NAMES, "at most {MOST_NAMES} names");
    Ok(Options { names, rates })
}

// Interns the names by 2 to the power `halvings` threads, and times that.
fn run<R: Threads + Sync + Clock>(
    rt: &R,
    alloc: Global,
    list: TextList,
    halvings: u32,
) -> Result<(Tally, Duration)> {
    let count = list.count();
    let (table, desk) = AtomTable::new(alloc, list)?;
    let start = Instant::now(rt)?;
    let (_desk, atoms) = interned(rt, alloc, &table, desk, 0, count, halvings)?;
    let time = start.elapsed(rt)?;
    let tally = counted(alloc, &table, atoms.as_slice())?;
    Ok((tally, time))
}

// Prints how many atoms and probes n names took.
fn print_tally<R: Print>(
    rt: &R,
    spelling: Spelling,
    threads: u32,
    count: u32,
    tally: Tally,
) -> Result<()> {
    println!(rt;
        "{spelling:?}, threads {threads}: {count} names, {} atoms, {} probes",
        tally.atoms, tally.probes
    )?;
    Ok(())
}

// Prints how many of n names were interned in a second.
fn print_rate<R: Print>(rt: &R, count: u32, time: Duration) -> Result<()> {
    let micros = time.as_micros().max(1);
    let rate = u128::from(count) * 1_000_000 / micros;
    println!(rt; "{rate} names a second")?;
    Ok(())
}

// Interns the names by 2 to the power `halvings` threads, and prints what came of it.
fn measure<R: Threads + Sync + Clock + Print>(
    rt: &R,
    alloc: Global,
    options: &Options,
    spelling: Spelling,
    halvings: u32,
) -> Result<()> {
    let list = doubled_names(alloc, RandomState::new(&Zeros)?, spelling, options.names)?;
    let count = list.count();
    let (tally, time) = run(rt, alloc, list, halvings)?;
    let threads = 1u32 << (halvings % 32);
    print_tally(rt, spelling, threads, count, tally)?;
    if options.rates {
        print_rate(rt, count, time)?;
    }
    Ok(())
}

fn main(rt: HostRuntime) -> Result<()> {
    let options = read_options(&rt)?;
    for spelling in [Spelling::Plain, Spelling::Padded] {
        measure(&rt, rt.alloc(), &options, spelling, 0)?;
        measure(&rt, rt.alloc(), &options, spelling, 2)?;
    }
    Ok(())
}
