//! Of each function whether it is shown.

ghost use Rattle.std.specs.Prelude.{◌≡◌, ◌≤◌, ◌+◌, ◌<◌, ℕ, Bool, false, ◌&&◌, ◌||◌, nat_eq, nat_le, length, slice_index_or, IfOk};
ghost use Rattle.compile_specs.specs.Shown as shown;
ghost use Rattle.compile_wanted.specs.Flags as flag;
ghost use Rattle.compile_wanted.specs.Numbers.{to_show};

use std::alloc::{AllocError, Global};

/// Which functions are wanted compiled.
#[derive(Clone, Copy, Debug)]
pub enum Wanted<'a> {
    All,
    /// Those of these numbers, from 1. Repeats change nothing.
    Numbers(&'a [u32]),
}

/// Marks the function of this number, if there is one.
fn mark(flags: &mut [bool], number: u32)
    ensures { (k : ℕ) → k < length flags.old → slice_index_or flags.new k false ≡ (slice_index_or flags.old k false || nat_eq number (k + 1)) }
{
    let number = number as usize;
    if number == 0 || flags.len() < number {
        return;
    }
    flags[number - 1] = true;
}

/// Of each of n functions, whether its number is among these.
fn marked(alloc: Global, numbers: &[u32], count: usize) -> Result<Vec<bool>, AllocError>
    ensures { IfOk result (λ all. all.items ≡ flag.wanted_flags (shown.Numbers numbers.now) count) }
{
    let mut flags = vec![in alloc; false; count]?;
    for number in numbers {
        mark(&mut flags, *number);
    }
    Ok(flags)
}

/// Of each of n functions, whether it is wanted.
fn wanted_flags(alloc: Global, wanted: Wanted<'_>, count: usize) -> Result<Vec<bool>, AllocError>
    ensures { IfOk result (λ all. all.items ≡ flag.wanted_flags (to_show wanted.entry) count) }
{
    match wanted {
        Wanted::All => Ok(vec![in alloc; true; count]?),
        Wanted::Numbers(numbers) => marked(alloc, numbers, count),
    }
}

/// The least end of a wanted function, where one more function is seen, which is wanted or not.
fn lowered(least: Option<u32>, wanted: bool, end: u32) -> Option<u32>
    ensures { (e : ℕ) → flag.reaches result e ≡ ((nat_le end e && wanted) || flag.reaches least e) }
{
    if !wanted {
        return least;
    }
    match least {
        Some(other) => Some(other.min(end)),
        None => Some(end),
    }
}

/// Whether there is an end, and it is here or before.
fn reaches(least: Option<u32>, end: u32) -> bool
    ensures { result ≡ flag.reaches least end }
{
    match least {
        None => false,
        Some(least) => least <= end,
    }
}

/// From which functions are wanted to which are shown: those, and the functions around them. Functions stand in the order in
/// which they start, and end at these offsets, so one is in another where it does not stand before it and does not end
/// after it.
fn show_around(flags: &mut [bool], ends: &[u32])
    requires { length flags.old ≡ length ends.now }
    ensures { flags.new ≡ flag.shown_flags flags.old ends.now }
{
    let mut least = None;
    let mut left = ends.len();
    while left > 0 {
        left -= 1;
        least = lowered(least, flags[left], ends[left]);
        flags[left] = reaches(least, ends[left]);
    }
}

/// Of functions that end at these offsets, in the order in which they start, whether each is shown compiled: it is wanted, or one
/// in it is. Time is linear in the functions and the numbers.
pub fn shown_flags(alloc: Global, wanted: Wanted<'_>, ends: &[u32]) -> Result<Vec<bool>, AllocError>
    ensures { IfOk result (λ all. all.items ≡ flag.shown_flags (flag.wanted_flags (to_show wanted.entry) (length ends.now)) ends.now) }
{
    let mut flags = wanted_flags(alloc, wanted, ends.len())?;
    show_around(&mut flags, ends);
    Ok(flags)
}
