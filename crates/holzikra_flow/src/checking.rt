//! Whether environments at the offsets of a code fit every step.

ghost use Rattle.std.specs.Prelude.{◌≡◌, ℕ, ◌+◌, ◌%◌, ◌^◌, ◌<◌, true, length};
ghost use Rattle.std.specs.Int.{cast_unsigned, w64};
ghost use Rattle.bytecode_buf.specs.Machine.{flow_of};
ghost use Rattle.bytecode_buf.specs.Width.{is_jump};
ghost use Rattle.holzikra_flow.specs.Flow.{CatchFits, Follows, IsFlow, LandsWith, NoteFits, PlaceFits, StepFits, goes_on};

use crate::environments::Environment;
use crate::step::{Change, change_of, goes_on, target_of};
use bytecode_buf::{Instr, decode_at};
use stencil_data::TryNote;

/// Whether the environment `after` is the one behind an instruction of the function that runs with the environment `before`.
fn follows(all: &[Environment], number: u32, instr: Instr, before: u32, after: u32) -> bool
    ensures { result ≡ true → Follows all.now number instr before after }
{
    match change_of(instr) {
        Change::Keep => after == before,
        Change::Push(pushed) => match all.get(after as usize) {
            Some(
                Environment::Inner {
                    function,
                    scope,
                    outer,
                },
            ) => { *function == number && u64::from(*scope) == pushed && *outer == before }
            _ => false,
        },
        Change::Pop => match all.get(before as usize) {
            Some(Environment::Inner { outer, .. }) => *outer == after,
            _ => false,
        },
    }
}

/// Whether an offset has the environment that is the one behind an instruction.
fn lands(
    all: &[Environment],
    number: u32,
    reached: &[Option<u32>],
    instr: Instr,
    before: u32,
    to: u64,
) -> bool
    ensures { result ≡ true → LandsWith all.now number reached.now instr before to }
{
    match reached.get(to as usize) {
        Some(Some(after)) => follows(all, number, instr, before, *after),
        _ => false,
    }
}

/// Whether the next instruction has the right environment, where control may go on to it.
fn next_fits(
    all: &[Environment],
    number: u32,
    reached: &[Option<u32>],
    instr: Instr,
    before: u32,
) -> bool
    ensures { result ≡ true → goes_on (flow_of instr.op) ≡ true → LandsWith all.now number reached.now instr before instr.next }
{
    if goes_on(instr.op) {
        lands(all, number, reached, instr, before, instr.next as u64)
    } else {
        true
    }
}

/// Whether the target of the instruction at an offset has the right environment, where it is a jump.
fn target_fits(
    all: &[Environment],
    number: u32,
    reached: &[Option<u32>],
    at: usize,
    instr: Instr,
    before: u32,
) -> bool
    ensures { result ≡ true → is_jump instr.op ≡ true → LandsWith all.now number reached.now instr before ((at + cast_unsigned w64 instr.to) % 2 ^ 64) }
{
    if instr.op.is_jump() {
        let target = target_of(at, instr.to);
        lands(all, number, reached, instr, before, target)
    } else {
        true
    }
}

/// Whether the instruction at an offset that runs with an environment leads only to offsets with the right ones.
fn step_fits(
    all: &[Environment],
    number: u32,
    code: &[u8],
    reached: &[Option<u32>],
    at: usize,
    before: u32,
) -> bool
    ensures { result ≡ true → StepFits all.now number code.now reached.now at before }
{
    match decode_at(code, at) {
        None => false,
        Some(instr) => {
            if !next_fits(all, number, reached, instr, before) {
                return false;
            }
            target_fits(all, number, reached, at, instr, before)
        }
    }
}

/// The same of the offset, whatever its environment is.
fn place_fits(
    all: &[Environment],
    number: u32,
    code: &[u8],
    reached: &[Option<u32>],
    at: usize,
) -> bool
    ensures { result ≡ true → PlaceFits all.now number code.now reached.now at }
{
    match reached.get(at) {
        Some(Some(before)) => step_fits(all, number, code, reached, at, *before),
        _ => true,
    }
}

/// The same of all offsets.
fn places_fit(all: &[Environment], number: u32, code: &[u8], reached: &[Option<u32>]) -> bool
    ensures { result ≡ true → ((at : ℕ) → at < length reached.now → PlaceFits all.now number code.now reached.now at) }
{
    for at in 0..reached.len() {
        if !place_fits(all, number, code, reached, at) {
            return false;
        }
    }
    true
}

/// Whether the end of a try note has the environment that its start has.
fn catch_fits(reached: &[Option<u32>], note: TryNote) -> bool
    ensures { result ≡ true → CatchFits reached.now note }
{
    match reached.get(note.start as usize) {
        Some(Some(before)) => match reached.get(note.end as usize) {
            Some(Some(after)) => *after == *before,
            _ => false,
        },
        _ => true,
    }
}

/// The same of the note of this place, if there is one.
fn note_fits(reached: &[Option<u32>], notes: &[TryNote], index: usize) -> bool
    ensures { result ≡ true → NoteFits reached.now notes.now index }
{
    match notes.get(index) {
        Some(note) => catch_fits(reached, *note),
        _ => true,
    }
}

/// The same of all notes.
fn notes_fit(reached: &[Option<u32>], notes: &[TryNote]) -> bool
    ensures { result ≡ true → ((k : ℕ) → k < length notes.now → NoteFits reached.now notes.now k) }
{
    for index in 0..notes.len() {
        if !note_fits(reached, notes, index) {
            return false;
        }
    }
    true
}

/// Whether environments at the offsets of the code of a function fit every step.
pub(crate) fn is_flow(
    all: &[Environment],
    number: u32,
    code: &[u8],
    notes: &[TryNote],
    reached: &[Option<u32>],
) -> bool
    ensures { result ≡ true → IsFlow all.now number code.now notes.now reached.now }
{
    if !places_fit(all, number, code, reached) {
        return false;
    }
    notes_fit(reached, notes)
}
