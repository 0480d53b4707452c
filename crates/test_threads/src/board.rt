//! A board of a small script: two functions, one in the other.

ghost use Rattle.std.specs.Prelude.{◌≡◌, ◌≤◌, length, IfOk};
ghost use Rattle.std.specs.Arc.{arc_value};
ghost use Rattle.compile_initial.specs.Initial.{IsInitialOf};
ghost use Rattle.stencil_board.specs.Files.{IsFilled, file_at};
ghost use Rattle.stencil_board.specs.Passes.{BelongsTo, IsBoard, IsNumberOf};

use crate::scripts::initial_of;
use compile_initial::InitialStencil;
use compile_tally::Sheet;
use lazy_compile::Delazified;
use std::alloc::{AllocError, Global};
use std::marker::Brand;
use std::sync::Arc;
use std::test::Fail;
use stencil_board::{Board, Filled, Pass, Sources};
use stencil_data::InitialParts;

/// A function that was requested, and how many compiles were counted for it.
#[derive(Drop)]
struct Asked {
    made: Arc<Delazified>,
    count: u64,
}

fn small_board<'a, N: Sources>(
    alloc: Global,
    bytes: &'a [u8],
    initial: &'a InitialStencil,
) -> Result<Board<'a, N>, AllocError>
    requires picked { file_at N.files 0 ≡ record { bytes = bytes.now; texts = initial.now.parts.texts } }
    requires initial { IsInitialOf bytes.now initial.now }
    requires two { length initial.now.parts.records ≡ 2 }
    ensures board { IfOk result (IsBoard N.files) }
    ensures file { IfOk result (λ board. board.file ≡ 0) }
    ensures two { IfOk result (λ board. length board.cells ≡ 2) }
{
    let board = Board::new(alloc, 0, bytes, initial)?;
    Ok(board)
}

fn ask<N: Sources>(
    alloc: Global,
    board: &Board<'_, N>,
    pass: &mut Pass<N>,
    number: u32,
) -> Result<Asked, AllocError>
    requires board { IsBoard N.files board.now }
    requires belongs { BelongsTo pass.old board.now }
    requires number { IsNumberOf board.now number }
    requires two { length board.now.cells ≡ 2 }
    ensures belongs { BelongsTo pass.new board.now }
    ensures is { IfOk result (λ asked. IsFilled (file_at N.files board.now.file) number (arc_value asked.made)) }
{
    let mut sheet = Sheet::new(2);
    let made = board.request(alloc, pass, number, &mut sheet)?;
    let count = sheet.count();
    Ok(Asked { made, count })
}

/// How many compiles are counted for the inner function and then for the outer one, with one pass, and then for both with another;
/// and whether that one knows the cell of the inner function.
fn ask_twice<N: Sources>(
    alloc: Global,
    board: &Board<'_, N>,
) -> Result<(u64, u64, u64, bool), AllocError>
    requires board { IsBoard N.files board.now }
    requires two { length board.now.cells ≡ 2 }
{
    let mut pass = board.pass(alloc)?;
    let inner = ask(alloc, board, &mut pass, 2)?;
    let outer = ask(alloc, board, &mut pass, 1)?;
    let mut second = board.pass(alloc)?;
    let other = ask(alloc, board, &mut second, 2)?;
    board.meet(&mut pass, &mut second);
    let known = board.known(&mut second, 2).is_some();
    Ok((inner.count, outer.count, other.count, known))
}

/// How many are counted for the outer function, twice, where its cell keeps the result of the inner one.
fn ask_beside<N: Sources>(
    alloc: Global,
    board: &Board<'_, N>,
    inner: Arc<Delazified>,
) -> Result<(u64, u64), AllocError>
    requires board { IsBoard N.files board.now }
    requires two { length board.now.cells ≡ 2 }
    requires inner { IsFilled (file_at N.files board.now.file) 2 (arc_value inner) }
    requires file { board.now.file ≡ 0 }
{
    let mut pass = board.pass(alloc)?;
    let _stands = board.publish(alloc, &mut pass, 1, Filled::new(0, 2, inner))?;
    let once = ask(alloc, board, &mut pass, 1)?;
    let twice = ask(alloc, board, &mut pass, 1)?;
    Ok((once.count, twice.count))
}

/// Both, each on a board of its own.
fn ask_on<N: Sources>(
    alloc: Global,
    bytes: &[u8],
    initial: &InitialStencil,
) -> Result<((u64, u64, u64, bool), (u64, u64)), AllocError>
    requires picked { file_at N.files 0 ≡ record { bytes = bytes.now; texts = initial.now.parts.texts } }
    requires initial { IsInitialOf bytes.now initial.now }
    requires two { length initial.now.parts.records ≡ 2 }
{
    let board = small_board::<N>(alloc, bytes, initial)?;
    let apart = ask_twice(alloc, &board)?;
    let mut pass = board.pass(alloc)?;
    let inner = ask(alloc, &board, &mut pass, 2)?;
    let other = small_board::<N>(alloc, bytes, initial)?;
    let beside = ask_beside(alloc, &other, inner.made)?;
    Ok((apart, beside))
}

/// The same, where the file is picked.
fn ask_picked(
    alloc: Global,
    bytes: &[u8],
    initial: &InitialStencil,
) -> Result<((u64, u64, u64, bool), (u64, u64)), AllocError>
    requires initial { IsInitialOf bytes.now initial.now }
    requires two { length initial.now.parts.records ≡ 2 }
{
    ask_on::<Brand>(alloc, bytes, initial)
}

/// A script of two functions, one in the other, before any is compiled.
fn small_script(alloc: Global, text: &[u8]) -> Result<InitialStencil, Fail>
    requires { length text.now ≤ 16777215 }
    ensures initial { IfOk result (IsInitialOf text.now) }
    ensures two { IfOk result (λ made. length made.parts.records ≡ 2) }
{
    let before = initial_of(alloc, text)?;
    if count_of(&before.parts) != 2 {
        return Err(Fail::from("not two functions"));
    }
    Ok(before)
}

fn count_of(parts: &InitialParts) -> usize
    ensures { result ≡ length parts.now.records }
{
    parts.records.len()
}

#[test]
fn a_function_is_compiled_once_and_after_the_one_around_it(rt: HostRuntime) -> Result<(), Fail> {
    let text = b"function f(a) { return function () { return a; }; }";
    let before = small_script(rt.alloc(), text)?;
    let (apart, beside) = ask_picked(rt.alloc(), text, &before)?;
    assert_eq!(rt; apart, (2, 0, 0, true));
    assert_eq!(rt; beside, (1, 0));
    Ok(())
}
