//! Tries the scanner: on a table of token texts with their right answers, and for speed.
//!
//! Without words it reads rows from the standard input, scans the text of each row, and prints how many rows there are, how many
//! of them came out otherwise and what came. With the word `rates` it also generates a script of some megabytes and
//! prints how many megabytes a second are scanned. With the word `huge` it scans texts of 16,777,215 bytes, of
//! one kind each, and prints how many tokens they have. With the word `whole` it reads no rows: the standard input is one script, which
//! it scans once.
#![tactic(auto)]

mod huge;
mod rates;
mod reading;
mod rows;
mod shown;
mod whole;

use anyhow::Result;
use std::env;
use std::rt::Env;

fn main(rt: HostRuntime) -> Result<()> {
    if asks_for(&rt, "whole")? {
        return whole::scan_input(&rt, rt.alloc());
    }
    rows::try_rows(&rt, rt.alloc())?;
    if asks_for(&rt, "rates")? {
        rates::print_rates(&rt, rt.alloc())?;
    }
    if asks_for(&rt, "huge")? {
        huge::print_huge(&rt, rt.alloc())?;
    }
    Ok(())
}

fn asks_for<R: Env + AllocGlobal>(rt: &R, what: &str) -> Result<bool> {
    let mut asked = false;
    for word in env::args(rt)?.skip(1) {
        asked |= word.as_str() == what;
    }
    Ok(asked)
}
