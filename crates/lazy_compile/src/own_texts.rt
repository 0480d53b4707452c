//! The names of a record among texts of a function's own.

ghost use Rattle.std.specs.Prelude.{◌≡◌, ◌+◌, ◌-◌, ◌^◌, ◌<◌, ◌≤◌, length, IfOk, OnOk};
ghost use Rattle.stencil_data.specs.StandsFor.{ClosedWithin, NameWithin, text_at};
ghost use Rattle.parser_atoms.specs.Places.{AreWithoutEquals, Interns};
ghost use Rattle.lazy_compile.specs.OwnTexts.{AreOwnNames, IsOwnName, TakesFrom};

use parser_atoms::Atoms;
use std::alloc::{AllocError, Global};
use stencil_data::{ClosedName, Text};

/// The own atom of the text that has this atom among `texts`.
fn own_atom(alloc: Global, atoms: &mut Atoms, atom: u32, texts: &[Text]) -> Result<u32, AllocError>
    requires within { atom < length texts.now }
    requires few { length atoms.old < 2 ^ 32 - 1 }
    ensures interned { IfOk result (Interns atoms.old atoms.new (text_at texts.now atom)) }
    ensures apart { AreWithoutEquals atoms.new }
{
    atoms.intern(alloc, texts[atom as usize].units())
}

/// A name by its own atom.
pub(crate) fn own_name(
    alloc: Global,
    atoms: &mut Atoms,
    name: Option<u32>,
    texts: &[Text],
) -> Result<Option<u32>, AllocError>
    requires within { NameWithin (length texts.now) name }
    requires few { length atoms.old < 2 ^ 32 - 1 }
    requires apart { AreWithoutEquals atoms.old }
    ensures name { IfOk result (IsOwnName texts.now atoms.new name) }
    ensures taken { OnOk result (TakesFrom texts.now atoms.old atoms.new) }
    ensures few { OnOk result (length atoms.new ≤ length atoms.old + 1) }
{
    match name {
        None => Ok(None),
        Some(atom) => Ok(Some(own_atom(alloc, atoms, atom, texts)?)),
    }
}

/// Closed names by their own atoms.
pub(crate) fn own_closed(
    alloc: Global,
    atoms: &mut Atoms,
    closed: &[ClosedName],
    texts: &[Text],
) -> Result<Vec<ClosedName>, AllocError>
    requires within { ClosedWithin (length texts.now) closed.now }
    requires few { length atoms.old + length texts.now < 2 ^ 32 - 1 }
    requires apart { AreWithoutEquals atoms.old }
    ensures names { IfOk result (λ own. AreOwnNames texts.now atoms.new closed.now own.items) }
    ensures taken { OnOk result (TakesFrom texts.now atoms.old atoms.new) }
{
    let mut own = Vec::with_capacity(alloc, closed.len())?;
    for name in closed {
        let atom = own_atom(alloc, atoms, name.atom, texts)?;
        own.push(ClosedName {
            scope: name.scope,
            atom,
        })?;
    }
    Ok(own)
}
