//! The names that inner functions close over, by the function that binds them.

ghost use Rattle.std.specs.Prelude.{◌≡◌, ◌++◌, ◌∷◌, [], ℕ, false, cond, nat_eq, IfOk, OnOk};
ghost use Rattle.std.specs.Ordering.{nat_cmp};
ghost use Rattle.std.specs.BTreeMap.{get};
ghost use Rattle.compile_numbers.specs.Sorted.{AreSorted, Takes, names_in, names_or};

use parse_track::region::ClosedAt;
use std::alloc::{AllocError, Global};
use std::collections::BTreeMap;
use std::marker::Model;
use stencil_data::ClosedName;

/// The closed names of a script and of each function in it, in the order of scopes and bindings. Contracts see those of the
/// script, and those of the function that starts at an offset.
#[derive(Drop)]
pub struct ClosedNames {
    top: Vec<ClosedName>,
    functions: BTreeMap<u32, Vec<ClosedName>>,
}

impl Model for ClosedNames {
    ghost use Rattle.compile_numbers.specs.Sorted.{NamesView};

    ghost Value = { NamesView };

    ghost view = { λ c. record { top = c.top.items; functions = c.functions.entries } };
}

/// Takes out the names of the function that starts there.
fn taken(
    alloc: Global,
    functions: &mut BTreeMap<u32, Vec<ClosedName>>,
    start: u32,
) -> Vec<ClosedName>
    ensures names { result.items ≡ names_or (get nat_cmp functions.old start) }
    ensures others { (other : ℕ) → nat_eq start other ≡ false → get nat_cmp functions.new other ≡ get nat_cmp functions.old other }
{
    match functions.remove(&start) {
        Some(names) => names,
        None => Vec::new(alloc),
    }
}

/// Adds a name after those of the function that starts there.
fn add(
    alloc: Global,
    functions: &mut BTreeMap<u32, Vec<ClosedName>>,
    start: u32,
    name: ClosedName,
) -> Result<(), AllocError>
    ensures { OnOk result ((other : ℕ) → names_or (get nat_cmp functions.new other)
        ≡ names_or (get nat_cmp functions.old other) ++ cond (nat_eq start other) (name ∷ []) []) }
{
    let mut names = taken(alloc, functions, start);
    names.push(name)?;
    functions.insert(start, names)?;
    Ok(())
}

impl ClosedNames {
    /// No names. It takes no memory.
    fn none(alloc: Global) -> ClosedNames
        ensures { AreSorted [] result }
    {
        ClosedNames {
            top: Vec::new(alloc),
            functions: BTreeMap::new(alloc),
        }
    }

    fn take_in(&mut self, alloc: Global, at: ClosedAt) -> Result<(), AllocError>
        ensures { OnOk result (Takes at self.old self.new) }
    {
        let name = ClosedName {
            scope: at.scope,
            atom: at.atom,
        };
        match at.func {
            None => self.top.push(name)?,
            Some(start) => add(alloc, &mut self.functions, start, name)?,
        }
        Ok(())
    }

    /// Sorts closed names by their functions.
    pub fn of(alloc: Global, closed: &[ClosedAt]) -> Result<ClosedNames, AllocError>
        ensures { IfOk result (λ names. AreSorted closed.now names) }
    {
        let mut names = ClosedNames::none(alloc);
        for at in closed {
            names.take_in(alloc, *at)?;
        }
        Ok(names)
    }

    /// Those of the script itself.
    pub fn of_script(&self) -> &[ClosedName]
        ensures { result.now ≡ self.now.top }
    {
        &self.top
    }

    /// Those of the function whose parameters start there.
    pub fn of_function(&self, start: u32) -> &[ClosedName]
        ensures { result.now ≡ names_in self.now start }
    {
        match self.functions.get(&start) {
            Some(names) => names,
            None => &[],
        }
    }
}
