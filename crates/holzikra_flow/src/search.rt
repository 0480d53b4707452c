//! The search along all paths through a code. Nothing is claimed of what it finds: `checking` holds it against the definition.

use crate::environments::{Environment, put};
use crate::step::{Change, change_of, goes_on, target_of};
use bytecode_buf::{Instr, decode_at};
use std::alloc::{AllocError, Global};
use stencil_data::{FunctionStencil, TryNote};

/// What was found: the environments at the offsets, and the offsets whose instructions have still to be looked at.
#[derive(Drop)]
struct Found {
    reached: Vec<Option<u32>>,
    pending: Vec<usize>,
}

impl Found {
    /// Puts an environment down at an offset that has none yet.
    fn arrive(&mut self, at: u64, environment: u32) -> Result<(), AllocError> {
        let place = at as usize;
        if place < self.reached.len() && self.reached[place].is_none() {
            self.reached[place] = Some(environment);
            self.pending.push(place)?;
        }
        Ok(())
    }

    /// Goes to the ends of the notes, sorted by their starts, that start at an offset.
    fn land(&mut self, notes: &[TryNote], at: usize, environment: u32) -> Result<(), AllocError> {
        let first = notes.partition_point(|note| note.start < at as u64);
        for note in notes.iter().skip(first) {
            if note.start != at as u64 {
                break;
            }
            self.arrive(note.end, environment)?;
        }
        Ok(())
    }
}

/// The environment behind an instruction, where there is one.
fn after(
    all: &mut Vec<Environment>,
    number: u32,
    instr: Instr,
    environment: u32,
) -> Result<Option<u32>, AllocError> {
    match change_of(instr) {
        Change::Keep => Ok(Some(environment)),
        Change::Push(operand) => {
            let Ok(scope) = u32::try_from(operand) else {
                return Ok(None);
            };
            let pushed = Environment::Inner {
                function: number,
                scope,
                outer: environment,
            };
            put(all, pushed)
        }
        Change::Pop => match all.get(environment as usize) {
            Some(Environment::Inner { outer, .. }) => Ok(Some(*outer)),
            _ => Ok(None),
        },
    }
}

/// Looks at the instruction at an offset that was found.
fn look(
    found: &mut Found,
    all: &mut Vec<Environment>,
    number: u32,
    code: &[u8],
    notes: &[TryNote],
    at: usize,
) -> Result<(), AllocError> {
    let Some(Some(environment)) = found.reached.get(at).copied() else {
        return Ok(());
    };
    found.land(notes, at, environment)?;
    let Some(instr) = decode_at(code, at) else {
        return Ok(());
    };
    let Some(behind) = after(all, number, instr, environment)? else {
        return Ok(());
    };
    if goes_on(instr.op) {
        found.arrive(instr.next as u64, behind)?;
    }
    if instr.op.is_jump() {
        found.arrive(target_of(at, instr.to), behind)?;
    }
    Ok(())
}

/// The environments at the offsets of a function's code, which starts with the environment of the number `first`.
pub(crate) fn search(
    alloc: Global,
    all: &mut Vec<Environment>,
    number: u32,
    part: &FunctionStencil,
    first: u32,
) -> Result<Vec<Option<u32>>, AllocError> {
    let mut notes = part.notes.as_slice().to_vec(alloc)?;
    notes.sort_unstable_by_key(|note| note.start);
    let mut found = Found {
        reached: vec![in alloc; None; part.code.len()]?,
        pending: Vec::new(alloc),
    };
    found.arrive(0, first)?;
    for _ in 0..part.code.len() {
        match found.pending.pop() {
            None => break,
            Some(at) => look(&mut found, all, number, &part.code, &notes, at)?,
        }
    }
    Ok(found.reached)
}
