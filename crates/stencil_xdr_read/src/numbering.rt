//! Whether the texts of a stencil are numbered as in its image.

ghost use Rattle.std.specs.Prelude.{◌≡◌, ◌↔◌, ◌<◌, ◌^◌, ◌-◌, Some, length, IfOk, IsTrue};
ghost use Rattle.parser_atoms.specs.Places.{AreWithoutEquals};
ghost use Rattle.stencil_xdr_read.specs.Atoms as numbering;
ghost use Rattle.stencil_xdr_read.specs.Canonical as canonical;

use crate::atoms::atoms_of;
use crate::range::is_within;
use parser_atoms::Atoms;
use std::alloc::{AllocError, Global};
use stencil_data::{MergedStencil, Text};

/// How many texts were named once this atom is named too.
fn next_seen(seen: u64, atom: u64) -> u64
    requires { seen < 2 ^ 64 - 1 }
    ensures { result ≡ numbering.next_seen seen atom }
{
    if atom == seen { seen + 1 } else { seen }
}

/// Whether the atoms name n texts, each for the first time after those before it.
fn are_numbered(atoms: &[u64], count: usize) -> bool
    ensures { IsTrue result ↔ (numbering.seen_after 0 atoms.now ≡ Some count) }
{
    let mut seen = 0;
    for (_at, atom) in atoms.iter().enumerate() {
        if *atom > seen {
            return false;
        }
        seen = next_seen(seen, *atom);
    }
    seen == count as u64
}

/// Whether no two texts are equal.
fn are_apart(alloc: Global, texts: &[Text]) -> Result<bool, AllocError>
    requires { length texts.now < 2 ^ 32 }
    ensures { IfOk result (λ apart. IsTrue apart ↔ AreWithoutEquals texts.now) }
{
    let mut atoms = Atoms::new(alloc);
    for (number, text) in texts.iter().enumerate() {
        let place = atoms.intern(alloc, text.units())?;
        if place as usize != number {
            return Ok(false);
        }
    }
    Ok(true)
}

/// Whether a stencil is in range and its texts are numbered as in its image.
pub(crate) fn is_canonical(alloc: Global, stencil: &MergedStencil) -> Result<bool, AllocError>
    requires { length stencil.now.texts < 2 ^ 32 }
    ensures { IfOk result (λ is. IsTrue is ↔ canonical.IsCanonical stencil.now) }
{
    let named = atoms_of(alloc, stencil)?;
    let apart = are_apart(alloc, &stencil.texts)?;
    Ok(is_within(stencil) && are_numbered(&named, stencil.texts.len()) && apart)
}
