//! The functions of a script, one after another, of each of which it is known whether it is shown.

ghost use Rattle.std.specs.Prelude.{◌≡◌, ◌≤◌, ◌+◌, ◌<◌, ℕ, Bool, true, length, OnOk};
ghost use Rattle.stencil_board.specs.Passes.{BelongsTo, IsBoard, IsUpward, Suffices, lacking};
ghost use Rattle.compile_shown.specs.Shown.{flagged};
ghost use Rattle.compile_shown.specs.UpTo.{AreNext, HasPassed, Passes, PassesAll};

use compile_tally::Ticks;
use lazy_compile::Delazified;
use std::alloc::{AllocError, Global};
use stencil_board::{Board, Pass, Sources};
use stencil_merge::Merger;

/// Asks for the function at this place, which is shown, and takes it in.
fn add_function<N: Sources, T: Ticks>(
    alloc: Global,
    board: &Board<'_, N>,
    pass: &mut Pass<N>,
    place: usize,
    merger: &mut Merger,
    tally: &mut T,
) -> Result<(), AllocError>
    requires board { IsBoard N.files board.now }
    requires belongs { BelongsTo pass.old board.now }
    requires place { place < length board.now.initial.parts.records }
    requires state { HasPassed board.now.bytes board.now.initial place merger.old }
    requires room { (shown : ℕ → Bool) × Suffices board.now.initial shown (place + 1) pass.old (T.room tally.old) }
    ensures state { OnOk result (Passes board.now.bytes board.now.initial place true merger.old merger.new) }
    ensures belongs { BelongsTo pass.new board.now }
    ensures sum { T.count tally.new + T.room tally.new ≡ T.count tally.old + T.room tally.old }
    ensures rising { T.count tally.old ≤ T.count tally.new }
    ensures counted { (shown : ℕ → Bool) → IsUpward board.now.initial shown → shown (place + 1) ≡ true
        → OnOk result (T.count tally.new + lacking shown pass.new ≤ T.count tally.old + lacking shown pass.old) }
    ensures most { (shown : ℕ → Bool) → IsUpward board.now.initial shown → shown (place + 1) ≡ true
        → T.count tally.new ≤ T.count tally.old + lacking shown pass.old }
{
    let number = place as u32 + 1;
    let made = board.request(alloc, pass, number, tally)?;
    let alone: &Delazified = &made;
    merger.add_behind(alloc, number, &alone.stencil, &alone.texts)
}

/// Passes the function at this place; one that is shown is taken in.
fn pass_function<N: Sources, T: Ticks>(
    alloc: Global,
    board: &Board<'_, N>,
    pass: &mut Pass<N>,
    place: usize,
    is_shown: bool,
    merger: &mut Merger,
    tally: &mut T,
) -> Result<(), AllocError>
    requires board { IsBoard N.files board.now }
    requires belongs { BelongsTo pass.old board.now }
    requires place { place < length board.now.initial.parts.records }
    requires state { HasPassed board.now.bytes board.now.initial place merger.old }
    requires room { is_shown ≡ true → (shown : ℕ → Bool) × Suffices board.now.initial shown (place + 1) pass.old (T.room tally.old) }
    ensures state { OnOk result (Passes board.now.bytes board.now.initial place is_shown merger.old merger.new) }
    ensures belongs { BelongsTo pass.new board.now }
    ensures sum { T.count tally.new + T.room tally.new ≡ T.count tally.old + T.room tally.old }
    ensures rising { T.count tally.old ≤ T.count tally.new }
    ensures counted { (shown : ℕ → Bool) → IsUpward board.now.initial shown → shown (place + 1) ≡ is_shown
        → OnOk result (T.count tally.new + lacking shown pass.new ≤ T.count tally.old + lacking shown pass.old) }
    ensures most { (shown : ℕ → Bool) → IsUpward board.now.initial shown → shown (place + 1) ≡ is_shown
        → T.count tally.new ≤ T.count tally.old + lacking shown pass.old }
{
    if is_shown {
        add_function(alloc, board, pass, place, merger, tally)
    } else {
        Ok(())
    }
}

/// Takes in all functions that are shown.
pub(crate) fn add_flagged<N: Sources, T: Ticks>(
    alloc: Global,
    board: &Board<'_, N>,
    pass: &mut Pass<N>,
    shown: &[bool],
    merger: &mut Merger,
    tally: &mut T,
) -> Result<(), AllocError>
    requires board { IsBoard N.files board.now }
    requires belongs { BelongsTo pass.old board.now }
    requires state { AreNext board.now.bytes board.now.initial shown.now merger.old }
    requires room { lacking (flagged shown.now) pass.old ≤ T.room tally.old }
    ensures state { OnOk result (PassesAll board.now.bytes board.now.initial shown.now merger.old merger.new) }
    ensures belongs { BelongsTo pass.new board.now }
    ensures sum { T.count tally.new + T.room tally.new ≡ T.count tally.old + T.room tally.old }
    ensures rising { T.count tally.old ≤ T.count tally.new }
    ensures counted { OnOk result (T.count tally.new + lacking (flagged shown.now) pass.new
        ≤ T.count tally.old + lacking (flagged shown.now) pass.old) }
    ensures most { T.count tally.new ≤ T.count tally.old + lacking (flagged shown.now) pass.old }
{
    for place in 0..shown.len() {
        pass_function(alloc, board, pass, place, shown[place], merger, tally)?;
    }
    Ok(())
}
