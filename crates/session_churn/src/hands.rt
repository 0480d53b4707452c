//! What the workers of a round have to themselves.

ghost use Rattle.std.specs.Prelude.{◌≡◌, length, IfOk};

use std::alloc::{AllocError, Global};

/// What a worker has to itself: the tasks that it was given.
#[derive(Drop)]
pub struct Hand {
    pub visited: Vec<u32>,
}

/// n workers, none of which was given a task.
pub(crate) fn idle_hands(alloc: Global, count: u32) -> Result<Vec<Hand>, AllocError>
    ensures { IfOk result (λ hands. length hands.items ≡ count) }
{
    let mut hands = Vec::new(alloc);
    for _ in 0..count {
        hands.push(Hand {
            visited: Vec::new(alloc),
        })?;
    }
    Ok(hands)
}
