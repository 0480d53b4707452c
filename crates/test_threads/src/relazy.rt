//! The functions of a small script, requested, discarded and requested again.

ghost use Rattle.compile_initial.specs.Initial.{IsInitialOf};
ghost use Rattle.lazy_function.specs.Numbered.{IsNumberIn};

use crate::scripts::initial_of;
use compile_tally::Sheet;
use relazy_board::RelazyBoard;
use std::alloc::{AllocError, Global};
use std::test::Fail;

/// Three functions, each in the one before.
const NESTED: &[u8] = b"function f(x){ return () => () => x }";

/// Where they start.
const STARTS: [u32; 3] = [10, 22, 28];

/// Reads a function once: where it starts, and how many functions were compiled for that.
fn read_once(alloc: Global, board: &RelazyBoard<'_>, number: u32) -> Result<(u32, u64), AllocError>
    requires initial { IsInitialOf board.now.bytes board.now.initial }
    requires number { IsNumberIn board.now.initial number }
{
    let mut sheet = Sheet::new(number as u64);
    let reading = board.request(alloc, number, &mut sheet)?;
    let start = board.value(&reading).stencil.extent.start;
    board.release(reading);
    Ok((start, sheet.count()))
}

/// Discards a function while a reading of it is out.
fn discard_under_reading(
    alloc: Global,
    board: &RelazyBoard<'_>,
    number: u32,
) -> Result<(), AllocError>
    requires initial { IsInitialOf board.now.bytes board.now.initial }
    requires number { IsNumberIn board.now.initial number }
{
    let mut sheet = Sheet::new(number as u64);
    let reading = board.request(alloc, number, &mut sheet)?;
    board.discard(number);
    board.release(reading);
    Ok(())
}

#[test]
fn a_function_is_compiled_again_after_a_discard(rt: HostRuntime) -> Result<(), Fail> {
    let alloc = rt.alloc();
    let initial = initial_of(alloc, NESTED)?;
    let board = RelazyBoard::new(alloc, NESTED, &initial)?;
    assert_eq!(rt; initial.parts.records.len(), 3);
    assert_eq!(rt; read_once(alloc, &board, 1)?.1, 1);
    assert_eq!(rt; read_once(alloc, &board, 1)?.1, 0);
    board.discard(1);
    assert_eq!(rt; read_once(alloc, &board, 1)?.1, 1);
    discard_under_reading(alloc, &board, 1)?;
    assert_eq!(rt; read_once(alloc, &board, 1)?.1, 0);
    Ok(())
}

#[test]
fn functions_around_are_compiled_where_they_are_needed(rt: HostRuntime) -> Result<(), Fail> {
    let alloc = rt.alloc();
    let initial = initial_of(alloc, NESTED)?;
    let board = RelazyBoard::new(alloc, NESTED, &initial)?;
    assert_eq!(rt; initial.parts.records.len(), 3);
    assert_eq!(rt; read_once(alloc, &board, 3)?.1, 3);
    board.discard(2);
    assert_eq!(rt; read_once(alloc, &board, 3)?.1, 0);
    board.discard(3);
    assert_eq!(rt; read_once(alloc, &board, 3)?.1, 2);
    assert_eq!(rt; read_once(alloc, &board, 3)?.0, STARTS[2]);
    Ok(())
}
