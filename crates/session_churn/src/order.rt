//! In which order the functions of a script are visited.

ghost use Rattle.std.specs.Prelude.{IfOk};
ghost use Rattle.helper_tasks.specs.Jobs.{IsOrderOf};

use std::alloc::{AllocError, Global};

/// The numbers of n tasks, rising.
pub(crate) fn rising_tasks(alloc: Global, count: u32) -> Result<Vec<u32>, AllocError>
    ensures { IfOk result (λ tasks. IsOrderOf count tasks.items) }
{
    let mut tasks = Vec::new(alloc);
    for task in 0..count {
        tasks.push(task)?;
    }
    Ok(tasks)
}
