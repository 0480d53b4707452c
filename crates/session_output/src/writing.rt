//! Texts written to a sink, whose listings are made as they are written.

ghost use Rattle.std.specs.Prelude.{◌≡◌, ◌-◌, ◌^◌, ◌<◌, ◌≤◌, length, take, drop};
ghost use Rattle.script_image.specs.Pieces.{ArePieces, Lead, from_script};
ghost use Rattle.script_image.specs.declared.pieces.Place.{Place};
ghost use Rattle.session_outside.specs.Sink.{CountsSink, GainsAllOrFront};
ghost use Rattle.session_output.specs.Texts.{AllArePieces, GainsBetween, texts_in};

use crate::printing::{ROUND, texts_of};
use crate::text::{ListedScript, OutputText};
use helper_tasks::Gate;
use script_image::{Piece, pieces_of};
use session_outside::{Sink, SinkRefusal, write_bytes};
use std::alloc::Global;
use std::sync::Wait;
use std::thread::Threads;

/// Gives the sink these texts, one after another.
fn write_each<K: Sink>(sink: &mut K, texts: &[Vec<u8>]) -> Result<(), SinkRefusal>
    requires { K.faults sink.old < 2 ^ 64 - 1 }
    ensures count { CountsSink (K.faults sink.old) (K.faults sink.new) result }
    ensures took { GainsAllOrFront (K.taken sink.old) (K.taken sink.new) (texts_in texts.now) result }
{
    for text in texts {
        match write_bytes(sink, text) {
            Ok(()) => {}
            Err(SinkRefusal::Failed) => return Err(SinkRefusal::Failed),
            Err(SinkRefusal::NoMemory) => return Err(SinkRefusal::NoMemory),
        }
    }
    Ok(())
}

/// Gives the sink what is listed in these pieces, which so many workers make.
fn write_round<R: Threads + Wait + Sync, G: Gate, K: Sink>(
    rt: &R,
    alloc: Global,
    sink: &mut K,
    script: &ListedScript,
    pieces: &[Piece],
    workers: u32,
    gate: &G,
) -> Result<(), SinkRefusal>
    requires faults { K.faults sink.old < 2 ^ 64 - 1 }
    requires pieces { AllArePieces script.now pieces.now }
    requires few { length pieces.now ≤ 128 }
    requires workers { (1 ≤ workers) × (workers ≤ 16) }
    ensures count { CountsSink (K.faults sink.old) (K.faults sink.new) result }
    ensures took { (from to : Place) → Lead script.now.listing script.now.stencil from pieces.now to
        → GainsBetween script.now from to (K.taken sink.old) (K.taken sink.new) result }
{
    match texts_of(rt, alloc, script, pieces, workers, gate) {
        Ok(texts) => write_each(sink, &texts),
        Err(_) => Err(SinkRefusal::NoMemory),
    }
}

/// The pieces of the next round: those behind the first `done`, as many as a round has.
fn pieces_behind(pieces: &[Piece], done: usize) -> &[Piece]
    requires { done < length pieces.now }
    ensures are { result.now ≡ take (length result.now) (drop done pieces.now) }
    ensures some { 0 < length result.now }
    ensures few { length result.now ≤ 128 }
    ensures within { length result.now ≤ length pieces.now - done }
{
    let count = (pieces.len() - done).min(ROUND);
    &pieces[done..done + count]
}

/// Gives the sink what is listed in all pieces of a listing: those of a round are made, written and let go, then the next ones.
fn write_pieces<R: Threads + Wait + Sync, G: Gate, K: Sink>(
    rt: &R,
    alloc: Global,
    sink: &mut K,
    script: &ListedScript,
    pieces: &[Piece],
    workers: u32,
    gate: &G,
) -> Result<(), SinkRefusal>
    requires faults { K.faults sink.old < 2 ^ 64 - 1 }
    requires pieces { ArePieces script.now.listing script.now.stencil pieces.now }
    requires workers { (1 ≤ workers) × (workers ≤ 16) }
    ensures count { CountsSink (K.faults sink.old) (K.faults sink.new) result }
    ensures took { GainsAllOrFront (K.taken sink.old) (K.taken sink.new) (from_script script.now.listing script.now.stencil 0) result }
{
    let mut done = 0;
    while done < pieces.len() {
        let round = pieces_behind(pieces, done);
        match write_round(rt, alloc, sink, script, round, workers, gate) {
            Ok(()) => done += round.len(),
            Err(SinkRefusal::Failed) => return Err(SinkRefusal::Failed),
            Err(SinkRefusal::NoMemory) => return Err(SinkRefusal::NoMemory),
        }
    }
    Ok(())
}

/// Gives the sink the listing of a stencil.
fn write_listing<R: Threads + Wait + Sync, G: Gate, K: Sink>(
    rt: &R,
    alloc: Global,
    sink: &mut K,
    script: &ListedScript,
    workers: u32,
    gate: &G,
) -> Result<(), SinkRefusal>
    requires faults { K.faults sink.old < 2 ^ 64 - 1 }
    requires workers { (1 ≤ workers) × (workers ≤ 16) }
    ensures count { CountsSink (K.faults sink.old) (K.faults sink.new) result }
    ensures took { GainsAllOrFront (K.taken sink.old) (K.taken sink.new) (from_script script.now.listing script.now.stencil 0) result }
{
    match pieces_of(alloc, script.listing, &script.stencil) {
        Ok(pieces) => write_pieces(rt, alloc, sink, script, &pieces, workers, gate),
        Err(_) => Err(SinkRefusal::NoMemory),
    }
}

/// Gives the sink a text. Its listing is made by so many workers; never more of it is in memory than the pieces of one round.
pub fn write_text<R: Threads + Wait + Sync, G: Gate, K: Sink>(
    rt: &R,
    alloc: Global,
    sink: &mut K,
    text: &OutputText,
    workers: u32,
    gate: &G,
) -> Result<(), SinkRefusal>
    requires faults { K.faults sink.old < 2 ^ 64 - 1 }
    requires workers { (1 ≤ workers) × (workers ≤ 16) }
    ensures count { CountsSink (K.faults sink.old) (K.faults sink.new) result }
    ensures took { GainsAllOrFront (K.taken sink.old) (K.taken sink.new) text.now result }
{
    match write_bytes(sink, &text.head) {
        Ok(()) => {}
        Err(SinkRefusal::Failed) => return Err(SinkRefusal::Failed),
        Err(SinkRefusal::NoMemory) => return Err(SinkRefusal::NoMemory),
    }
    match &text.listed {
        None => Ok(()),
        Some(script) => write_listing(rt, alloc, sink, script, workers, gate),
    }
}
