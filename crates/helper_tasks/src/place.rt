// What the tasks gave, put into the order of the tasks.
ghost use Rattle.std.specs.Prelude.{◌≡◌, ℕ, ◌<◌, List, [], ◌++◌, IfOk, IsSome, length, map};
ghost use Rattle.helper_tasks.specs.Count.{Each};
ghost use Rattle.helper_tasks.specs.Crew.{placed, empty_slots, all_made};

use crate::helper::{Made, WorkerDesk};
use std::alloc::{AllocError, Global};

// n empty slots.
fn slots<O: Drop>(alloc: Global, count: usize) -> Result<Vec<Option<O>>, AllocError>
    ensures { IfOk result (λ v. v.items ≡ empty_slots count) }
{
    let mut slots = Vec::new(alloc);
    for _ in 0..count {
        slots.push(None)?;
    }
    Ok(slots)
}

// Puts each out into its task's slot.
fn place_all<O: Drop>(slots: &mut [Option<O>], made: Vec<Made<O>>)
    requires { Each (λ m. m.task < length slots.old) made.items }
    ensures { slots.new ≡ placed slots.old made.items }
{
    for one in made {
        slots[one.task as usize] = Some(one.out);
    }
}

// The outs of slots that are all filled.
fn outs<O: Drop>(alloc: Global, slots: Vec<Option<O>>) -> Result<Vec<O>, AllocError>
    requires { Each IsSome slots.items }
    ensures { IfOk result (λ v. map (λ x. Some x) v.items ≡ slots.items) }
{
    let mut outs = Vec::new(alloc);
    for slot in slots {
        match slot {
            Some(out) => outs.push(out)?,
            None => unreachable!(),
        }
    }
    Ok(outs)
}

/// The outs of all desks in the order of their tasks, and the shares.
pub fn collect<S: Drop, O: Drop>(
    alloc: Global,
    count: usize,
    desks: Vec<WorkerDesk<S, O>>,
) -> Result<(Vec<O>, Vec<S>), AllocError>
    requires tasks { Each (λ m. m.task < count) (all_made desks.items) }
    requires filled { Each IsSome (placed (empty_slots count) (all_made desks.items)) }
    ensures outs { IfOk result (λ r. map (λ x. Some x) r.0.items ≡ placed (empty_slots count) (all_made desks.items)) }
    ensures shares { IfOk result (λ r. r.1.items ≡ map (λ d. d.share) desks.items) }
{
    let mut slots = slots(alloc, count)?;
    let mut shares = Vec::new(alloc);
    for desk in desks {
        let WorkerDesk { share, made } = desk;
        shares.push(share)?;
        place_all(&mut slots, made);
    }
    Ok((outs(alloc, slots)?, shares))
}
