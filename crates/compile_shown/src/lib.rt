//! The functions of a script that are shown compiled, each from its extent, put together with the script's own part.
//!
//! It stands on stencil_board, on which each function of a script is compiled where it is first asked for, on compile_wanted, which
//! says which functions are shown, and on stencil_merge, which takes them in. The laws that bind these are compile_lazy_laws. Who
//! answers a command about some functions of a script stands on it.
//!
//! Functions are asked for in order of number. What others have compiled already is there; of the others each is compiled, and the
//! functions around it, which are shown too (`proofs/Upward.antt`).
//!
//! The main contract is that of [`merge_shown`]: the stencil stands for what is shown of the script (`Shows` of compile_wanted),
//! and its texts are fewer than 2^31 and small, so that it has an image. [`flags_of`] says which functions are shown.
//! [`compile_shown`] is the same for who has no board: by one worker, on a board of its own.
#![tactic(auto)]

ghost use Rattle.std.specs.Prelude.{◌≡◌, ◌≤◌, ◌<◌, ◌+◌, ◌^◌, ◌∷◌, [], ℕ, List, length, map, IfOk, OnOk};
ghost use Rattle.bytecode_buf.specs.InRange.{TextsSmall};
ghost use Rattle.compile_specs.specs.Shown as wanting;
ghost use Rattle.compile_wanted.specs.Numbers.{to_show};
ghost use Rattle.compile_initial.specs.Initial.{IsInitialOf};
ghost use Rattle.stencil_board.specs.Passes.{BelongsTo, IsBoard, lacking};
ghost use Rattle.compile_shown.specs.Counting.{trues};
ghost use Rattle.compile_shown.specs.Shown.{AreFlags, ShowsWanted, flagged, shown_in};
ghost use Rattle.compile_shown.specs.UpTo.{BeginsWith};

mod flagged;

use crate::flagged::add_flagged;
use compile_initial::InitialStencil;
use compile_tally::Ticks;
use compile_wanted::{Wanted, shown_flags};
use std::alloc::{AllocError, Global};
use std::marker::Brand;
use stencil_board::{Board, Pass, Sources};
use stencil_data::{LazyRecord, MergedStencil};
use stencil_merge::Merger;

/// Of each function of a script whether it is shown compiled, where these are wanted. Time is linear in the functions and the
/// numbers. Only memory can fail.
pub fn flags_of(
    alloc: Global,
    initial: &InitialStencil,
    wanted: Wanted<'_>,
) -> Result<Vec<bool>, AllocError>
    requires { (bytes : List ℕ) × IsInitialOf bytes initial.now }
    ensures { IfOk result (λ flags. AreFlags (to_show wanted.entry) initial.now.parts.records flags.items) }
{
    let parts = &initial.parts;
    let ends = ends_of(alloc, &parts.records)?;
    let flags = shown_flags(alloc, wanted, &ends)?;
    Ok(flags)
}

/// Where functions end.
fn ends_of(alloc: Global, records: &[LazyRecord]) -> Result<Vec<u32>, AllocError>
    ensures { IfOk result (λ ends. ends.items ≡ map (λ lazy. lazy.extent.end) records.now) }
{
    records.iter().map(|lazy| lazy.extent.end).collect(alloc)
}

/// Compiles those functions of the script of these bytes that are shown where these are wanted, and answers the script with them.
/// Each is counted before it is compiled. Time and memory are linear in the bytes of these functions, and in the records. Only
/// memory can fail.
pub fn compile_shown<T: Ticks>(
    alloc: Global,
    bytes: &[u8],
    initial: &InitialStencil,
    wanted: Wanted<'_>,
    tally: &mut T,
) -> Result<MergedStencil, AllocError>
    requires initial { IsInitialOf bytes.now initial.now }
    requires room { shown_in (to_show wanted) initial.now ≤ T.room tally.old }
    ensures shown { IfOk result (ShowsWanted (to_show wanted.entry) bytes.now initial.now) }
    ensures few { IfOk result (λ merged. length merged.texts < 2 ^ 31) }
    ensures small { IfOk result (λ merged. TextsSmall merged.texts) }
    ensures sum { T.count tally.new + T.room tally.new ≡ T.count tally.old + T.room tally.old }
    ensures rising { T.count tally.old ≤ T.count tally.new }
    ensures most { T.count tally.new ≤ T.count tally.old + shown_in (to_show wanted.entry) initial.now }
{
    let flags = flags_of(alloc, initial, wanted)?;
    compile_flagged::<Brand, T>(alloc, bytes, initial, &flags, tally)
}

/// The same, where it is known of each function whether it is shown.
fn compile_flagged<N: Sources, T: Ticks>(
    alloc: Global,
    bytes: &[u8],
    initial: &InitialStencil,
    shown: &[bool],
    tally: &mut T,
) -> Result<MergedStencil, AllocError>
    requires picked { N.files ≡ record { bytes = bytes.now; texts = initial.now.parts.texts } ∷ [] }
    requires initial { IsInitialOf bytes.now initial.now }
    requires flags { (want : wanting.Wanted) × AreFlags want initial.now.parts.records shown.now }
    requires room { trues shown.now ≤ T.room tally.old }
    ensures shown { IfOk result (λ merged. (want : wanting.Wanted) → AreFlags want initial.now.parts.records shown.now
        → ShowsWanted want bytes.now initial.now merged) }
    ensures few { IfOk result (λ merged. length merged.texts < 2 ^ 31) }
    ensures small { IfOk result (λ merged. TextsSmall merged.texts) }
    ensures sum { T.count tally.new + T.room tally.new ≡ T.count tally.old + T.room tally.old }
    ensures rising { T.count tally.old ≤ T.count tally.new }
    ensures most { T.count tally.new ≤ T.count tally.old + trues shown.now }
{
    let board = Board::<N>::new(alloc, 0, bytes, initial)?;
    let mut pass = board.pass(alloc)?;
    merge_shown(alloc, &board, &mut pass, shown, tally)
}

/// Asks for those functions of the script of this board that are shown, one after another in order of number, and answers the script
/// with them. Each that is compiled for this is counted before. Time and memory are linear in the bytes of these functions, and in
/// the records. Only memory can fail.
pub fn merge_shown<N: Sources, T: Ticks>(
    alloc: Global,
    board: &Board<'_, N>,
    pass: &mut Pass<N>,
    shown: &[bool],
    tally: &mut T,
) -> Result<MergedStencil, AllocError>
    requires board { IsBoard N.files board.now }
    requires belongs { BelongsTo pass.old board.now }
    requires flags { (want : wanting.Wanted) × AreFlags want board.now.initial.parts.records shown.now }
    requires room { lacking (flagged shown.now) pass.old ≤ T.room tally.old }
    ensures shown { IfOk result (λ merged. (want : wanting.Wanted) → AreFlags want board.now.initial.parts.records shown.now
        → ShowsWanted want board.now.bytes board.now.initial merged) }
    ensures few { IfOk result (λ merged. length merged.texts < 2 ^ 31) }
    ensures small { IfOk result (λ merged. TextsSmall merged.texts) }
    ensures belongs { BelongsTo pass.new board.now }
    ensures sum { T.count tally.new + T.room tally.new ≡ T.count tally.old + T.room tally.old }
    ensures rising { T.count tally.old ≤ T.count tally.new }
    ensures counted { OnOk result (T.count tally.new + lacking (flagged shown.now) pass.new
        ≤ T.count tally.old + lacking (flagged shown.now) pass.old) }
    ensures most { T.count tally.new ≤ T.count tally.old + lacking (flagged shown.now) pass.old }
{
    let mut merger = begin(alloc, board.initial())?;
    add_flagged(alloc, board, pass, shown, &mut merger, tally)?;
    let merged = merger.finish();
    Ok(merged)
}

/// Begins with no function.
fn begin(alloc: Global, initial: &InitialStencil) -> Result<Merger, AllocError>
    requires { (bytes : List ℕ) × IsInitialOf bytes initial.now }
    ensures { IfOk result (BeginsWith initial.now) }
{
    let merger = Merger::of_apart(alloc, &initial.parts)?;
    Ok(merger)
}
