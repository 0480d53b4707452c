//! The smallest of some offsets, and the offsets of names that clash.

ghost use Rattle.std.specs.Prelude.{◌≡◌, [], ℕ, cond, None, Some, IfOk, OnOk, map, nat_eq};
ghost use Rattle.parse_track.specs.AtomSets.{has_atom};
ghost use Rattle.parse_track.specs.EarlyErrors.{smaller, smallest, repeated, also_in, reserved, has_name};
ghost use Rattle.parse_track.specs.Log.{name_of, known_names};

use crate::atom_set::AtomSet;
use crate::region::WellKnownAtoms;
use script_grammar::tree::Ident;
use std::alloc::AllocError;

/// The smaller of two offsets, where there is one.
pub fn lesser(x: Option<u32>, y: Option<u32>) -> Option<u32>
    ensures { result ≡ smaller x y }
{
    match (x, y) {
        (None, y) => y,
        (Some(a), None) => Some(a),
        (Some(a), Some(b)) => Some(a.min(b)),
    }
}

/// The smaller of an offset, where there is one, and of this one, where names clash.
pub fn lesser_if(first: Option<u32>, clash: bool, at: u32) -> Option<u32>
    ensures { result ≡ cond clash (smaller first (Some at)) first }
{
    if clash {
        lesser(first, Some(at))
    } else {
        first
    }
}

/// The smallest offset of a name that stands before it too. The set is for its use.
pub fn first_repeated(seen: &mut AtomSet, names: &[Ident]) -> Result<Option<u32>, AllocError>
    ensures { IfOk result (λ first. first ≡ smallest (repeated nat_eq [] (map name_of names.now))) }
{
    seen.clear();
    let mut first = None;
    for name in names {
        let is_new = seen.insert(name.atom)?;
        first = lesser_if(first, !is_new, name.at);
    }
    Ok(first)
}

/// The set has the atoms of these names alone.
fn fill(atoms: &mut AtomSet, names: &[Ident]) -> Result<(), AllocError>
    ensures { OnOk result ((q : ℕ) → has_atom atoms.new.marks.items atoms.new.version q ≡ has_name nat_eq q (map name_of names.now)) }
{
    atoms.clear();
    for name in names {
        atoms.insert(name.atom)?;
    }
    Ok(())
}

/// The smallest offset of a name of the second list that the first has. The set is for its use.
pub fn first_also(
    atoms: &mut AtomSet,
    xs: &[Ident],
    ys: &[Ident],
) -> Result<Option<u32>, AllocError>
    ensures { IfOk result (λ first. first ≡ smallest (also_in nat_eq (map name_of xs.now) (map name_of ys.now))) }
{
    fill(atoms, xs)?;
    let mut first = None;
    for name in ys {
        first = lesser_if(first, atoms.contains(name.atom), name.at);
    }
    Ok(first)
}

/// The smallest offset of a name that may not be bound.
pub fn first_reserved(known: &WellKnownAtoms, names: &[Ident]) -> Option<u32>
    ensures { result ≡ smallest (reserved nat_eq (known_names known.now) (map name_of names.now)) }
{
    let mut first = None;
    for name in names {
        if name.atom == known.eval || name.atom == known.arguments {
            first = lesser(first, Some(name.at));
        }
    }
    first
}
