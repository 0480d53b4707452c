//! One round over the functions of a script: each is visited once, by one of several workers.

ghost use Rattle.std.specs.Prelude.{◌≡◌, ◌≤◌, ◌+◌, ◌^◌, length, IfOk};
ghost use Rattle.session_churn.specs.Counts.{HaveInstructions};
ghost use Rattle.session_churn.specs.Visits.{CanBeVisited, IsVisitOf};

use crate::count::count_instructions;
use crate::hands::{Hand, idle_hands};
use crate::order::rising_tasks;
use crate::visits::{RoundSum, Visit, found_by};
use compile_tally::Sheet;
use helper_tasks::{Gate, Job, run_tasks};
use relazy_board::RelazyBoard;
use std::alloc::{AllocError, Global};
use std::sync::Wait;
use std::thread::Threads;

/// The functions of a script as tasks: the task of a number visits the function after that number.
#[derive(Drop)]
struct Round<'r, 'a> {
    board: &'r RelazyBoard<'a>,
    functions: u32,
}

impl<'r, 'a> Job for Round<'r, 'a> {
    ghost use Rattle.session_churn.specs.Visits.{CanBeVisited, IsVisitOf};

    type Out = Visit;

    type Share = Hand;

    ghost tasks = { λ round. round.functions };

    ghost gives = { λ round task visit. IsVisitOf round.board.now.bytes (task + 1) visit };

    ghost fits = { λ round hand. CanBeVisited round.board.now round.functions };

    ghost ran = { λ hand. hand.visited.items };

    fn run(&self, alloc: Global, task: u32, hand: &mut Hand) -> Result<Visit, AllocError> {
        hand.visited.push(task)?;
        self.visit(alloc, task + 1)
    }
}

impl<'r, 'a> Round<'r, 'a> {
    /// Asks for a function and counts its instructions, and discards the function before it.
    fn visit(&self, alloc: Global, number: u32) -> Result<Visit, AllocError>
        requires can { CanBeVisited self.now.board.now self.now.functions }
        requires number { (1 ≤ number) × (number ≤ self.now.functions) }
        ensures { IfOk result (IsVisitOf self.now.board.now.bytes number) }
    {
        let mut sheet = Sheet::new(u64::from(number));
        let reading = self.board.request(alloc, number, &mut sheet)?;
        let instructions = count_instructions(&self.board.value(&reading).stencil.code);
        self.board.release(reading);
        if number > 1 {
            self.board.discard(number - 1);
        }
        Ok(Visit {
            instructions,
            compiled: sheet.count(),
        })
    }
}

/// Visits each function of a script once, by this number of workers, and no more than there are functions.
pub(crate) fn visit_all<R: Threads + Wait + Sync, G: Gate>(
    rt: &R,
    alloc: Global,
    board: &RelazyBoard<'_>,
    functions: u32,
    workers: u32,
    gate: &G,
) -> Result<RoundSum, AllocError>
    requires can { CanBeVisited board.now functions }
    requires workers { (1 ≤ workers) × (workers ≤ 16) }
    ensures instructions { IfOk result (λ found. HaveInstructions board.now.bytes found.instructions) }
    ensures size { IfOk result (λ found. found.instructions ≤ 2 ^ 83) }
    ensures compiled { IfOk result (λ found. found.compiled ≤ 2 ^ 38) }
{
    let order = rising_tasks(alloc, functions)?;
    let hands = idle_hands(alloc, workers.min(functions).max(1))?;
    let tasks = Round { board, functions };
    let (visits, _) = run_tasks(rt, alloc, &order, hands, &tasks, gate)?;
    Ok(found_by(&visits))
}
