//! Functions by their numbers.

ghost use Rattle.std.specs.Prelude.{◌≡◌, ◌+◌, ◌^◌, ◌<◌, length, IfOk};
ghost use Rattle.compile_specs.specs.Shown as shown;
ghost use Rattle.emit_limit_laws.specs.Offsets.{OffsetsRise};

use std::alloc::{AllocError, Global};
use stencil_data::Extent;

/// The number of the function whose parameters start there, among functions that start at these rising offsets. It is the
/// greatest number of 32 bits where there are too many.
pub fn number_of(starts: &[u32], start: u32) -> u32
    ensures { OffsetsRise 0 starts.now → length starts.now + 1 < 2 ^ 32 → result ≡ shown.number_of starts.now start }
{
    let before = starts.partition_point(|s| *s < start);
    u32::try_from(before + 1).unwrap_or(u32::MAX)
}

/// The numbers of the functions with these extents.
pub fn numbers_of(alloc: Global, starts: &[u32], extents: &[Extent]) -> Result<Vec<u32>, AllocError>
    ensures { IfOk result (λ numbers. OffsetsRise 0 starts.now → length starts.now + 1 < 2 ^ 32
        → numbers.items ≡ shown.numbers_of starts.now extents.now) }
{
    let mut numbers = Vec::new(alloc);
    for extent in extents {
        numbers.push(number_of(starts, extent.start))?;
    }
    Ok(numbers)
}
