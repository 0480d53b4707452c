//! The notes behind the lines of a listing.

use crate::slots::Slots;
use bytecode_buf::{Instr, Op, Shape};
use holzikra_flow::{Arrival, Environments, Origin, arrivals};
use holzikra_names::{
    Source, append_extent, append_name, append_owner, append_spot, kind_words, text_at,
};
use holzikra_stats::code_instructions;
use script_image::append_decimal;
use std::alloc::{AllocError, Global};
use stencil_data::{FunctionStencil, LazyRecord, MergedStencil};

/// What is known of the code of a function beside its bytes.
#[derive(Drop)]
pub(crate) struct Known {
    number: u32,
    /// The environment with which each instruction runs, where that is known.
    reached: Option<Vec<Option<u32>>>,
    arrivals: Vec<Arrival>,
    /// How many of the arrivals are at offsets that were passed.
    passed: usize,
    slots: Slots,
}

/// What names are found in.
#[derive(Clone, Copy)]
pub(crate) struct Around<'a> {
    pub merged: &'a MergedStencil,
    pub environments: &'a Environments,
}

/// Puts a comma between two parts of a note.
fn separate(note: &mut Vec<u8>) -> Result<(), AllocError> {
    if !note.is_empty() {
        note.extend_from_slice(b", ")?;
    }
    Ok(())
}

/// Appends a count and a word in the singular or the plural.
fn append_count(note: &mut Vec<u8>, count: u64, word: &str) -> Result<(), AllocError> {
    separate(note)?;
    append_decimal(note, count)?;
    note.extend_from_slice(b" ")?;
    note.extend_from_slice(word.as_bytes())?;
    if count != 1 {
        note.extend_from_slice(b"s")?;
    }
    Ok(())
}

/// The words on a function that is not compiled.
pub(crate) fn lazy_note<S: Source>(
    note: &mut Vec<u8>,
    source: &S,
    lazy: &LazyRecord,
) -> Result<(), AllocError> {
    note.extend_from_slice(kind_words(lazy.kind).as_bytes())?;
    append_extent(note, b", ", source, lazy.extent)?;
    note.extend_from_slice(b", not compiled")?;
    Ok(())
}

/// The words on a compiled function, or on the script: how it is written, its place, its counts.
pub(crate) fn part_note<S: Source>(
    note: &mut Vec<u8>,
    source: &S,
    words: &str,
    part: &FunctionStencil,
    depth: Option<u64>,
) -> Result<(), AllocError> {
    note.extend_from_slice(words.as_bytes())?;
    append_extent(note, b", ", source, part.extent)?;
    append_count(note, code_instructions(&part.code) as u64, "instruction")?;
    append_count(note, part.code.len() as u64, "byte")?;
    if let Some(depth) = depth {
        note.extend_from_slice(b", depth ")?;
        append_decimal(note, depth)?;
    }
    Ok(())
}

/// Appends how a function is written, its name and where it starts.
fn append_made<S: Source>(
    alloc: Global,
    note: &mut Vec<u8>,
    merged: &MergedStencil,
    source: &S,
    lazy: &LazyRecord,
) -> Result<(), AllocError> {
    separate(note)?;
    note.extend_from_slice(kind_words(lazy.kind).as_bytes())?;
    if let Some(atom) = lazy.name {
        note.extend_from_slice(b" ")?;
        append_name(alloc, note, text_at(&merged.texts, atom))?;
    }
    if let Some(spot) = source.spot(lazy.extent.start) {
        note.extend_from_slice(b" at ")?;
        append_spot(note, spot)?;
    }
    Ok(())
}

/// Appends the name of an atom.
fn append_atom(
    alloc: Global,
    note: &mut Vec<u8>,
    merged: &MergedStencil,
    atom: Option<u32>,
) -> Result<(), AllocError> {
    if let Some(atom) = atom {
        separate(note)?;
        append_name(alloc, note, text_at(&merged.texts, atom))?;
    }
    Ok(())
}

/// Whether a unit is no ASCII character.
fn has_others(units: &[u16]) -> bool {
    for unit in units {
        if *unit > 127 {
            return true;
        }
    }
    false
}

/// Appends a text between backquotes where it has a character that the listing prints as an escape.
fn append_text(alloc: Global, note: &mut Vec<u8>, units: &[u16]) -> Result<(), AllocError> {
    if has_others(units) {
        separate(note)?;
        note.extend_from_slice(b"`")?;
        append_name(alloc, note, units)?;
        note.extend_from_slice(b"`")?;
    }
    Ok(())
}

/// The same of the text of an atom.
fn append_string(
    alloc: Global,
    note: &mut Vec<u8>,
    merged: &MergedStencil,
    atom: u64,
) -> Result<(), AllocError> {
    match u32::try_from(atom) {
        Err(_) => Ok(()),
        Ok(atom) => append_text(alloc, note, text_at(&merged.texts, atom)),
    }
}

impl Known {
    /// What is known of the code of this function. The functions in front of it have to have been looked at before.
    pub(crate) fn of(
        alloc: Global,
        environments: &mut Environments,
        number: u32,
        part: &FunctionStencil,
    ) -> Result<Known, AllocError> {
        Ok(Known {
            number,
            reached: environments.flow(alloc, number, part)?,
            arrivals: arrivals(alloc, part)?,
            passed: 0,
            slots: Slots::of(alloc, part)?,
        })
    }

    /// The environment with which the instruction at an offset runs.
    fn environment(&self, at: usize) -> Option<u32> {
        match &self.reached {
            None => None,
            Some(reached) => reached.get(at).copied().flatten(),
        }
    }

    /// Appends which binding hops and a slot are: its name, and the function that owns it where that is another one.
    fn append_aliased(
        &self,
        alloc: Global,
        note: &mut Vec<u8>,
        around: Around<'_>,
        at: usize,
        instr: Instr,
    ) -> Result<(), AllocError> {
        let Some(environment) = self.environment(at) else {
            return Ok(());
        };
        let Some(bound) = around.environments.binding(environment, instr.a, instr.b) else {
            return Ok(());
        };
        append_atom(alloc, note, around.merged, Some(bound.binding.atom))?;
        if bound.function != self.number {
            note.extend_from_slice(b" of ")?;
            append_owner(note, bound.function)?;
        }
        Ok(())
    }

    /// Appends what is to be said of an instruction's operand.
    fn append_operand<S: Source>(
        &self,
        alloc: Global,
        note: &mut Vec<u8>,
        around: Around<'_>,
        source: &S,
        at: usize,
        instr: Instr,
    ) -> Result<(), AllocError> {
        match instr.op.row().shape {
            Shape::Arg => append_atom(alloc, note, around.merged, self.slots.arg(instr.a)),
            Shape::Slot => append_atom(alloc, note, around.merged, self.slots.frame(instr.a)),
            Shape::Aliased => self.append_aliased(alloc, note, around, at, instr),
            Shape::Atom => append_string(alloc, note, around.merged, instr.a),
            Shape::Num => append_lambda(alloc, note, around.merged, source, instr),
            _ => Ok(()),
        }
    }

    /// Appends from where control comes to an offset, which rises from call to call.
    fn append_origins(&mut self, note: &mut Vec<u8>, at: usize) -> Result<(), AllocError> {
        let mut first = true;
        for index in self.passed..self.arrivals.len() {
            let Some(arrival) = self.arrivals.get(index).copied() else {
                break;
            };
            if arrival.to > at as u64 {
                break;
            }
            self.passed = index + 1;
            if arrival.to == at as u64 {
                separate(note)?;
                if first {
                    note.extend_from_slice(b"from ")?;
                    first = false;
                }
                append_origin(note, arrival.from)?;
            }
        }
        Ok(())
    }

    /// Appends the note on the instruction at an offset, which rises from call to call.
    pub(crate) fn instruction_note<S: Source>(
        &mut self,
        alloc: Global,
        note: &mut Vec<u8>,
        around: Around<'_>,
        source: &S,
        at: usize,
        instr: Instr,
    ) -> Result<(), AllocError> {
        self.append_operand(alloc, note, around, source, at, instr)?;
        self.append_origins(note, at)?;
        if self.reached.is_some() && self.environment(at).is_none() {
            separate(note)?;
            note.extend_from_slice(b"not reached")?;
        }
        Ok(())
    }
}

/// Appends what a `Lambda` makes.
fn append_lambda<S: Source>(
    alloc: Global,
    note: &mut Vec<u8>,
    merged: &MergedStencil,
    source: &S,
    instr: Instr,
) -> Result<(), AllocError> {
    if !matches!(instr.op, Op::Lambda) {
        return Ok(());
    }
    match merged.records.get(instr.a.wrapping_sub(1) as usize) {
        None => Ok(()),
        Some(lazy) => append_made(alloc, note, merged, source, lazy),
    }
}

/// Appends an offset in five digits, as listings have it, or `catch`.
fn append_origin(note: &mut Vec<u8>, origin: Origin) -> Result<(), AllocError> {
    match origin {
        Origin::Catch => note.extend_from_slice(b"catch"),
        Origin::Jump(from) => {
            for least in [10_000, 1_000, 100, 10] {
                if from < least {
                    note.extend_from_slice(b"0")?;
                }
            }
            append_decimal(note, from)
        }
    }
}
