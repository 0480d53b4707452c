//! The functions that are directly in a script.

ghost use Rattle.std.specs.Prelude.{◌≡◌, ◌+◌, ◌-◌, ◌^◌, ◌<◌, ◌≤◌, ◌||◌, ℕ, List, Bool, false, nat_eq, length, slice_index_or, IfOk};
ghost use Rattle.std.specs.List.{list_any};
ghost use Rattle.stencil_merge.specs.Functions.{inner_of, is_inside, outermost};

use std::alloc::{AllocError, Global};
use stencil_data::LazyRecord;

// Marks the function of this number, if there is one.
fn mark(flags: &mut [bool], number: u32)
    ensures { (k : ℕ) → k < length flags.old → slice_index_or flags.new k false ≡ (slice_index_or flags.old k false || nat_eq number (k + 1)) }
{
    let number = number as usize;
    if number == 0 || flags.len() < number {
        return;
    }
    flags[number - 1] = true;
}

// Marks the functions of these numbers.
fn mark_all(flags: &mut [bool], numbers: &[u32])
    ensures { (k : ℕ) → k < length flags.old
        → slice_index_or flags.new k false ≡ (slice_index_or flags.old k false || list_any (λ n. nat_eq n (k + 1)) numbers.now) }
{
    for number in numbers {
        mark(flags, *number);
    }
}

// Of each function, whether it is directly in another one.
fn are_inside(alloc: Global, records: &[LazyRecord]) -> Result<Vec<bool>, AllocError>
    ensures count { IfOk result (λ flags. length flags.items ≡ length records.now) }
    ensures flags { IfOk result (λ flags. (k : ℕ) → k < length records.now
        → slice_index_or flags.items k false ≡ is_inside (inner_of records.now) (k + 1)) }
{
    let mut flags = vec![in alloc; false; records.len()]?;
    for lazy in records {
        mark_all(&mut flags, &lazy.inner);
    }
    Ok(flags)
}

/// The numbers of the functions that are in no other, in their order. Time is linear in the records.
pub(crate) fn outermost_of(alloc: Global, records: &[LazyRecord]) -> Result<Vec<u32>, AllocError>
    requires { length records.now < 2 ^ 32 }
    ensures { IfOk result (λ numbers. numbers.items ≡ outermost (inner_of records.now)) }
{
    let flags = are_inside(alloc, records)?;
    let mut numbers = Vec::new(alloc);
    for (place, is_inside) in flags.iter().enumerate() {
        if *is_inside {
            continue;
        }
        numbers.push(place as u32 + 1)?;
    }
    Ok(numbers)
}
