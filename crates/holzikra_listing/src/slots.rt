//! The names of a function's arguments and frame slots.

use std::alloc::{AllocError, Global};
use stencil_data::{FunctionStencil, Slot};

/// A slot of a function, and the name that lives in it.
#[derive(Clone, Copy)]
struct Named {
    slot: u32,
    atom: u32,
}

/// The names of arguments and of frame slots, each by rising slot.
#[derive(Drop)]
pub(crate) struct Slots {
    args: Vec<Named>,
    frame: Vec<Named>,
}

/// The one name of a slot; none where two names share it.
fn name_in(names: &[Named], slot: u64) -> Option<u32> {
    let first = names.partition_point(|name| u64::from(name.slot) < slot);
    let found = names.get(first)?;
    if u64::from(found.slot) != slot {
        return None;
    }
    match names.get(first.saturating_add(1)) {
        Some(next) if next.slot == found.slot && next.atom != found.atom => None,
        _ => Some(found.atom),
    }
}

impl Slots {
    pub(crate) fn of(alloc: Global, part: &FunctionStencil) -> Result<Slots, AllocError> {
        let mut slots = Slots {
            args: Vec::new(alloc),
            frame: Vec::new(alloc),
        };
        for scope in &part.scopes {
            slots.note(&scope.bindings)?;
        }
        slots.args.sort_by_key(|name| name.slot)?;
        slots.frame.sort_by_key(|name| name.slot)?;
        Ok(slots)
    }

    fn note(&mut self, bindings: &[stencil_data::Binding]) -> Result<(), AllocError> {
        for binding in bindings {
            let atom = binding.atom;
            match binding.slot {
                Slot::Arg(slot) => self.args.push(Named { slot, atom })?,
                Slot::Frame(slot) => self.frame.push(Named { slot, atom })?,
                _ => (),
            }
        }
        Ok(())
    }

    /// The name of an argument, as an atom.
    pub(crate) fn arg(&self, slot: u64) -> Option<u32> {
        name_in(&self.args, slot)
    }

    /// The name in a slot of the frame, as an atom.
    pub(crate) fn frame(&self, slot: u64) -> Option<u32> {
        name_in(&self.frame, slot)
    }
}
