//! The functions inside others, and those around them.

use std::alloc::{AllocError, Global};
use stencil_data::LazyRecord;

/// For each script whether it is one of these; script 0 is the script itself.
fn marks_of(alloc: Global, count: usize, numbers: &[u32]) -> Result<Vec<bool>, AllocError> {
    let mut marks = vec![in alloc; false; count]?;
    mark(&mut marks, numbers);
    Ok(marks)
}

/// Marks the scripts of these numbers.
fn mark(marks: &mut [bool], numbers: &[u32]) {
    for number in numbers {
        if (*number as usize) < marks.len() {
            marks[*number as usize] = true;
        }
    }
}

/// Whether the script of one of these numbers is marked.
fn any_marked(marks: &[bool], numbers: &[u32]) -> bool {
    for number in numbers {
        if marks.get(*number as usize).copied().unwrap_or(false) {
            return true;
        }
    }
    false
}

/// The numbers of the scripts that are marked.
fn numbers_of(alloc: Global, marks: &[bool]) -> Result<Vec<u32>, AllocError> {
    let mut numbers = Vec::new(alloc);
    let mut number = 0u32;
    for marked in marks {
        if *marked {
            numbers.push(number)?;
        }
        number = number.saturating_add(1);
    }
    Ok(numbers)
}

/// Marks all functions.
fn mark_all(marks: &mut [bool]) {
    for place in 0..marks.len() {
        marks[place] = true;
    }
}

/// The numbers of these functions and of all those inside them, rising. Script 0, the script itself, has all functions inside.
pub fn with_inner(
    alloc: Global,
    records: &[LazyRecord],
    numbers: &[u32],
) -> Result<Vec<u32>, AllocError> {
    let mut marks = marks_of(alloc, records.len().saturating_add(1), numbers)?;
    if marks.first().copied().unwrap_or(false) {
        mark_all(&mut marks);
    }
    for (index, lazy) in records.iter().enumerate() {
        if marks.get(index.saturating_add(1)).copied().unwrap_or(false) {
            mark(&mut marks, &lazy.inner);
        }
    }
    numbers_of(alloc, &marks)
}

/// What is shown of the script itself, or of a function, where some are chosen.
#[derive(Clone, Copy, PartialEq, Eq)]
pub enum Shown {
    /// It is chosen, and all of it is shown.
    Whole,
    /// It is around one that is chosen, and shown by a line.
    Folded,
    /// Nothing is shown of it.
    Hidden,
}

/// For each script whether it is one of these or around one of them.
fn marks_around(
    alloc: Global,
    records: &[LazyRecord],
    numbers: &[u32],
) -> Result<Vec<bool>, AllocError> {
    let mut marks = marks_of(alloc, records.len().saturating_add(1), numbers)?;
    mark(&mut marks, &[0]);
    let mut left = records.len();
    for _ in 0..records.len() {
        if let Some(lazy) = records.get(left.saturating_sub(1)) {
            if any_marked(&marks, &lazy.inner) && left < marks.len() {
                marks[left] = true;
            }
        }
        left = left.saturating_sub(1);
    }
    Ok(marks)
}

/// What is shown of the script itself, and of each function in order of number, where these are chosen.
pub fn shown_of(
    alloc: Global,
    records: &[LazyRecord],
    numbers: &[u32],
) -> Result<Vec<Shown>, AllocError> {
    let chosen = marks_of(alloc, records.len().saturating_add(1), numbers)?;
    let around = marks_around(alloc, records, numbers)?;
    let mut shown = Vec::new(alloc);
    for (place, is_chosen) in chosen.iter().enumerate() {
        let is_around = around.get(place).copied().unwrap_or(false);
        let one = if *is_chosen {
            Shown::Whole
        } else if is_around {
            Shown::Folded
        } else {
            Shown::Hidden
        };
        shown.push(one)?;
    }
    Ok(shown)
}
