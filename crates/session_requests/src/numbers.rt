//! Tasks in the order of their numbers.

ghost use Rattle.std.specs.Prelude.{◌≡◌, IfOk};
ghost use Rattle.helper_tasks.specs.Jobs.{IsOrderOf};
ghost use Rattle.session_requests.specs.Numbers as definition;

use std::alloc::{AllocError, Global};

/// The numbers below `count`, rising.
pub fn rising(alloc: Global, count: u32) -> Result<Vec<u32>, AllocError>
    ensures order { IfOk result (λ numbers. IsOrderOf count numbers.items) }
    ensures rising { IfOk result (λ numbers. numbers.items ≡ definition.rising count) }
{
    let mut numbers = Vec::new(alloc);
    for number in 0..count {
        numbers.push(number)?;
    }
    Ok(numbers)
}
