//! The answers for the files of a command, written one after another.

ghost use Rattle.std.specs.Prelude.{◌≡◌, ◌-◌, ◌^◌, ◌<◌, ◌≤◌};
ghost use Rattle.session_outside.specs.Sink.{CountsSink, GainsAllOrFront};
ghost use Rattle.compile_session.specs.Printed.{texts_in};

use crate::answer::FileAnswer;
use helper_tasks::Gate;
use session_output::write_text;
use session_outside::{Sink, SinkRefusal};
use std::alloc::Global;
use std::sync::Wait;
use std::thread::Threads;

/// Gives the sink the texts of these answers. Listings are made by so many workers, as they are written.
pub(crate) fn write_answers<R: Threads + Wait + Sync, G: Gate, K: Sink>(
    rt: &R,
    alloc: Global,
    sink: &mut K,
    answers: &[FileAnswer],
    workers: u32,
    gate: &G,
) -> Result<(), SinkRefusal>
    requires faults { K.faults sink.old < 2 ^ 64 - 1 }
    requires workers { (1 ≤ workers) × (workers ≤ 16) }
    ensures count { CountsSink (K.faults sink.old) (K.faults sink.new) result }
    ensures took { GainsAllOrFront (K.taken sink.old) (K.taken sink.new) (texts_in answers.now) result }
{
    for answer in answers {
        match write_text(rt, alloc, sink, &answer.text, workers, gate) {
            Ok(()) => {}
            Err(SinkRefusal::Failed) => return Err(SinkRefusal::Failed),
            Err(SinkRefusal::NoMemory) => return Err(SinkRefusal::NoMemory),
        }
    }
    Ok(())
}
