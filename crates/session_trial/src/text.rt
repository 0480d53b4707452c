//! The text.

ghost use Rattle.std.specs.Prelude.{◌≡◌, IfOk};
ghost use Rattle.session_trial.specs.Generated as definition;

use crate::lines::append_line;
use std::alloc::{AllocError, Global};

/// The next state of the sequence that kinds of lines come from.
fn next_state(state: u32) -> u32
    ensures { result ≡ definition.next_state state }
{
    state.wrapping_mul(1664525).wrapping_add(1013904223)
}

/// The text that is generated from a number and a size, which is its count of lines. A line takes less than 100 bytes.
pub fn generated_text(alloc: Global, number: u32, size: u32) -> Result<Vec<u8>, AllocError>
    ensures { IfOk result (λ text. text.items ≡ definition.generated number size) }
{
    let mut out = Vec::new(alloc);
    let mut state = number;
    for index in 0..size {
        state = next_state(state);
        append_line(alloc, &mut out, state, index)?;
    }
    Ok(out)
}
