//! What is done at a slot. Its word is free, or it says that something is there, which has so many readers. No call waits.

ghost use Rattle.std.specs.Prelude.{◌≡◌, ◌<◌, ◌%◌, ◌^◌, ◌-◌, IfSome, IsTrue};
ghost use Rattle.std.specs.Arc.{arc_value};
ghost use Rattle.counted_slot.specs.Counting.{readers};
ghost use Rattle.relazy_board.specs.Results.{IsResultOf};

use crate::place::{Kept, Slot};
use crate::reading::Reading;
use counted_slot::{FREE, MOST_READERS, ONE_READER, PRESENT, TAKEN};
use lazy_compile::Delazified;
use std::alloc::Global;
use std::marker::PhantomData;
use std::sync::Arc;

/// How often a reader that others were faster than tries again.
const ATTEMPTS: u32 = 1000;

/// Whether a slot with this word takes one more reader.
fn is_open(word: u64) -> bool
    ensures { IsTrue result → (word % 4 ≡ 1) × (readers word < 2 ^ 30 - 1) }
{
    word % 4 == PRESENT && word % 0x1_0000_0000 / ONE_READER < MOST_READERS
}

/// Becomes a reader of what is in the slot, if it is open.
pub(crate) fn enter<'b, 'a>(slot: &'b Slot<'a>) -> Option<Reading<'b, 'a>>
    ensures { IfSome result (IsResultOf slot.now) }
{
    for _ in 0..ATTEMPTS {
        let seen = slot.load();
        if !is_open(seen) {
            return None;
        }
        let (found, claim) = slot.turn(seen, seen + ONE_READER);
        if found == seen {
            return Reading::of_slot(claim);
        }
        claim.done();
    }
    None
}

/// Leaves a result in the slot too, if it is free and the result takes one more owner.
pub(crate) fn keep(slot: &Slot<'_>, made: &Arc<Delazified, Global>)
    requires { IsResultOf slot.now (arc_value made.now) }
{
    let Ok(made) = Arc::try_clone(made) else {
        return;
    };
    let (found, claim) = slot.turn(FREE, TAKEN);
    if found != FREE {
        claim.done();
        return;
    }
    let kept = Kept {
        made,
        of: PhantomData,
    };
    drop(claim.put(Some(kept), PRESENT));
}

/// Empties the slot, if something is there that nobody reads.
pub(crate) fn empty(slot: &Slot<'_>) {
    let (found, claim) = slot.turn(PRESENT, TAKEN);
    if found != PRESENT {
        claim.done();
        return;
    }
    drop(claim.put(None, FREE));
}
