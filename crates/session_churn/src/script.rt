//! A script whose functions are compiled in three rounds.

ghost use Rattle.std.specs.Prelude.{◌≤◌, ◌^◌, length, IfOk};
ghost use Rattle.compile_initial.specs.Initial.{IsInitialOf};
ghost use Rattle.session_churn.specs.Counts.{HasInstructions};

use crate::count::count_instructions;
use crate::rounds::visit_in_rounds;
use compile_initial::InitialStencil;
use helper_tasks::Gate;
use std::alloc::{AllocError, Global};
use std::sync::Wait;
use std::thread::Threads;

/// How often each function is visited.
const ROUNDS: u32 = 3;

/// What was found of a script whose functions were compiled, discarded and compiled again.
#[derive(Clone, Copy, Debug)]
pub struct Churned {
    /// How many instructions the script has with all its functions.
    pub instructions: u128,
    /// How many functions were compiled, one that was compiled again counted again.
    pub compiled: u64,
}

/// Compiles all functions of the script of these bytes by this number of workers, in three rounds; in each round the functions
/// are discarded, each after the next one was asked for. Memory does not grow with the rounds. Only memory can fail.
pub fn churn<R: Threads + Wait + Sync, G: Gate>(
    rt: &R,
    alloc: Global,
    bytes: &[u8],
    initial: &InitialStencil,
    workers: u32,
    gate: &G,
) -> Result<Churned, AllocError>
    requires initial { IsInitialOf bytes.now initial.now }
    requires few { length initial.now.parts.records ≤ 2 ^ 19 }
    requires workers { (1 ≤ workers) × (workers ≤ 16) }
    ensures instructions { IfOk result (λ churned. HasInstructions bytes.now churned.instructions) }
    ensures few { IfOk result (λ churned. churned.compiled ≤ 2 ^ 40) }
{
    let top = count_instructions(&initial.parts.top.code);
    let found = visit_in_rounds(rt, alloc, bytes, initial, workers, gate, ROUNDS)?;
    Ok(Churned {
        instructions: top as u128 + found.instructions,
        compiled: found.compiled,
    })
}
