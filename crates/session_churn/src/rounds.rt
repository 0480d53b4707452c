//! Several rounds over the functions of a script, one after another.

ghost use Rattle.std.specs.Prelude.{◌≤◌, ◌*◌, ◌^◌, length, IfOk};
ghost use Rattle.compile_initial.specs.Initial.{IsInitialOf};
ghost use Rattle.session_churn.specs.Counts.{HaveInstructions};

use crate::round::visit_all;
use crate::visits::RoundSum;
use compile_initial::InitialStencil;
use helper_tasks::Gate;
use relazy_board::RelazyBoard;
use std::alloc::{AllocError, Global};
use std::sync::Wait;
use std::thread::Threads;

/// Visits each function of the script of these bytes in this many rounds. The number of instructions is that of the last round,
/// that of functions compiled is over all of them. Nothing else is kept of a round, and the board holds each function once.
pub fn visit_in_rounds<R: Threads + Wait + Sync, G: Gate>(
    rt: &R,
    alloc: Global,
    bytes: &[u8],
    initial: &InitialStencil,
    workers: u32,
    gate: &G,
    count: u32,
) -> Result<RoundSum, AllocError>
    requires initial { IsInitialOf bytes.now initial.now }
    requires few { length initial.now.parts.records ≤ 2 ^ 19 }
    requires workers { (1 ≤ workers) × (workers ≤ 16) }
    requires count { (1 ≤ count) × (count ≤ 2 ^ 20) }
    ensures instructions { IfOk result (λ found. HaveInstructions bytes.now found.instructions) }
    ensures size { IfOk result (λ found. found.instructions ≤ 2 ^ 83) }
    ensures compiled { IfOk result (λ found. found.compiled ≤ count * 2 ^ 38) }
{
    let functions = initial.parts.records.len() as u32;
    let board = RelazyBoard::new(alloc, bytes, initial)?;
    let mut found = visit_all(rt, alloc, &board, functions, workers, gate)?;
    for _ in 1..count {
        let again = visit_all(rt, alloc, &board, functions, workers, gate)?;
        found = RoundSum {
            instructions: again.instructions,
            compiled: found.compiled + again.compiled,
        };
    }
    Ok(found)
}
