//! Which binding hops and a slot are.

use crate::environments::{Environment, Environments};
use std::alloc::{AllocError, Global};
use stencil_data::{Binding, Entry, FunctionStencil, MergedStencil, Slot};

/// A binding of a script, by the function and the scope that own it. The script is function 0.
#[derive(Clone, Copy)]
pub struct Bound {
    pub function: u32,
    pub scope: u32,
    pub binding: Binding,
}

/// The bindings of a scope that live in its environment.
fn note_bindings(
    owned: &mut Vec<Bound>,
    function: u32,
    scope: u32,
    bindings: &[Binding],
) -> Result<(), AllocError> {
    for binding in bindings {
        if matches!(binding.slot, Slot::Env(_)) {
            owned.push(Bound {
                function,
                scope,
                binding: *binding,
            })?;
        }
    }
    Ok(())
}

/// Those of a function or of the script.
fn note_scopes(
    owned: &mut Vec<Bound>,
    function: u32,
    part: &FunctionStencil,
) -> Result<(), AllocError> {
    let mut scope = 0u32;
    for data in &part.scopes {
        note_bindings(owned, function, scope, &data.bindings)?;
        scope = scope.saturating_add(1);
    }
    Ok(())
}

/// All bindings of a script that live in environments, by function, scope and slot.
pub(crate) fn owned_bindings(
    alloc: Global,
    merged: &MergedStencil,
) -> Result<Vec<Bound>, AllocError> {
    let mut owned = Vec::new(alloc);
    note_scopes(&mut owned, 0, &merged.top)?;
    let mut function = 0u32;
    for entry in &merged.entries {
        function = function.saturating_add(1);
        if let Entry::Compiled(part) = entry {
            note_scopes(&mut owned, function, part)?;
        }
    }
    owned.sort_by_key(|bound| bound.key())?;
    Ok(owned)
}

impl Bound {
    fn key(&self) -> (u32, u32, u64) {
        let slot = match self.binding.slot {
            Slot::Env(slot) => u64::from(slot),
            _ => u64::MAX,
        };
        (self.function, self.scope, slot)
    }
}

/// The place of the binding of this slot of a scope's environment, among bindings by function, scope and slot.
pub fn place_of(owned: &[Bound], function: u32, scope: u32, slot: u64) -> Option<usize> {
    let key = (function, scope, slot);
    let first = owned.partition_point(|bound| bound.key() < key);
    match owned.get(first) {
        Some(bound) if bound.key() == key => Some(first),
        _ => None,
    }
}

impl Environments {
    /// The environment that many environments outside of the one of this number.
    pub fn outwards(&self, number: u32, hops: u64) -> Option<Environment> {
        let mut number = number;
        for _ in 0..hops {
            match self.all.get(number as usize) {
                Some(Environment::Inner { outer, .. }) => number = *outer,
                _ => return None,
            }
        }
        self.all.get(number as usize).copied()
    }

    /// The place in `owned` of the binding in a slot of the environment that many environments outside of the one of this number.
    /// It takes time in proportion to the hops, and to the logarithm of the bindings.
    pub fn binding_place(&self, number: u32, hops: u64, slot: u64) -> Option<usize> {
        match self.outwards(number, hops) {
            Some(
                Environment::Inner {
                    function,
                    scope,
                    ..
                },
            ) => { place_of(&self.owned, function, scope, slot) }
            _ => None,
        }
    }

    /// The binding there.
    pub fn binding(&self, number: u32, hops: u64, slot: u64) -> Option<Bound> {
        let place = self.binding_place(number, hops, slot)?;
        self.owned.get(place).copied()
    }
}
