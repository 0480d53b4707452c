//! Which functions use which bindings of other functions.

use bytecode_buf::{Shape, decode_at};
use holzikra_flow::{Bound, Environments};
use std::alloc::{AllocError, Global};
use stencil_data::{Entry, FunctionStencil, MergedStencil};

/// That a function uses a binding that lives in an environment of another one.
#[derive(Clone, Copy)]
pub struct Use {
    /// The place of the binding among those of `Uses`.
    pub binding: usize,
    pub user: u32,
}

/// The bindings of a script that live in environments, and their uses by other functions than their own, by binding and then by
/// user, each once.
#[derive(Drop)]
pub struct Uses {
    pub bindings: Vec<Bound>,
    pub all: Vec<Use>,
}

/// What was found so far.
#[derive(Drop)]
struct Found {
    all: Vec<Use>,
    /// Of each binding the last function that was found to use it.
    last_users: Vec<Option<u32>>,
}

impl Found {
    fn note(
        &mut self,
        environments: &Environments,
        binding: usize,
        user: u32,
    ) -> Result<(), AllocError> {
        let owner = environments.owned.get(binding).map(|bound| bound.function);
        if owner == Some(user) || binding >= self.last_users.len() {
            return Ok(());
        }
        if self.last_users[binding] != Some(user) {
            self.last_users[binding] = Some(user);
            self.all.push(Use { binding, user })?;
        }
        Ok(())
    }

    /// Notes the uses in the code of a function. The functions in front of it have been looked at before.
    fn look(
        &mut self,
        alloc: Global,
        environments: &mut Environments,
        user: u32,
        part: &FunctionStencil,
    ) -> Result<(), AllocError> {
        let Some(reached) = environments.flow(alloc, user, part)? else {
            return Ok(());
        };
        for (at, environment) in reached.iter().enumerate() {
            let Some(number) = environment else {
                continue;
            };
            let Some(instr) = decode_at(&part.code, at) else {
                continue;
            };
            if let Shape::Aliased = instr.op.row().shape {
                if let Some(binding) = environments.binding_place(*number, instr.a, instr.b) {
                    self.note(environments, binding, user)?;
                }
            }
        }
        Ok(())
    }
}

impl Uses {
    /// All uses in the code of a script. It takes time in proportion to the code, up to logarithms.
    pub fn of(alloc: Global, merged: &MergedStencil) -> Result<Uses, AllocError> {
        let mut environments = Environments::of(alloc, merged)?;
        let mut found = Found {
            all: Vec::new(alloc),
            last_users: vec![in alloc; None; environments.owned.len()]?,
        };
        found.look(alloc, &mut environments, 0, &merged.top)?;
        let mut user = 0u32;
        for entry in &merged.entries {
            user = user.saturating_add(1);
            if let Entry::Compiled(part) = entry {
                found.look(alloc, &mut environments, user, part)?;
            }
        }
        found.all.sort_by_key(|one| one.binding)?;
        Ok(Uses {
            bindings: environments.owned,
            all: found.all,
        })
    }

    /// The uses of the binding of this place.
    pub fn of_binding(&self, binding: usize) -> &[Use] {
        let first = self.first_of(binding);
        let behind = self.first_of(binding.saturating_add(1));
        self.all.get(first..behind).unwrap_or(&[])
    }

    /// The place of the first use of a binding.
    pub(crate) fn first_of(&self, binding: usize) -> usize {
        self.all.partition_point(|one| one.binding < binding)
    }
}
