//! The room that a caller hands in for bytes.

ghost use Rattle.stencil_c.specs.Room.{IsHandedOut};

use crate::answers::{StencilAnswer, plain};

/// Writes bytes to the front of the room, where they fit.
pub(crate) fn hand_out(bytes: &[u8], room: &mut [u8]) -> StencilAnswer
    ensures { IsHandedOut bytes.now room.old room.new result }
{
    let needed = bytes.len() as u64;
    if bytes.len() > room.len() {
        return StencilAnswer {
            needed,
            ..plain(10)
        };
    }
    room[..bytes.len()].copy_from_slice(bytes);
    StencilAnswer { needed, ..plain(0) }
}
