//! Texts of one list as atoms of another.

ghost use Rattle.std.specs.Prelude.{◌≡◌, ◌+◌, ◌-◌, ◌^◌, ◌<◌, ◌≤◌, ◌++◌, length, slice_get, slice_index_or, IfOk, IfSome, OnErr, Some};
ghost use Rattle.parser_atoms.specs.Places.{AreWithoutEquals, Interns};
ghost use Rattle.stencil_merge.specs.Atoms.{atom_by, known_places, AreAtoms, TakesIn};

use parser_atoms::Atoms;
use std::alloc::{AllocError, Global};
use stencil_data::Text;

// How many texts every list begins with: the words that the compiler knows, as `arguments`.
const KNOWN_WORDS: usize = 7;

// Their atoms in every list.
const KNOWN_PLACES: [u32; KNOWN_WORDS] = [0, 1, 2, 3, 4, 5, 6];

// The atom of a text, where it is this place, which is among the first ones.
fn atom_standing(atoms: &Atoms, units: &[u16], place: usize) -> Option<u32>
    requires { length atoms.now < 2 ^ 32 - 1 }
    ensures { IfSome result (λ atom. slice_get atoms.now atom ≡ Some units.now) }
{
    if KNOWN_WORDS <= place || atoms.len() <= place {
        return None;
    }
    let text = atoms.text(place as u32);
    if text.units() == units {
        Some(place as u32)
    } else {
        None
    }
}

// The atom of a text, which is interned. Its place in its own list is tried first, since the known words have one place in all lists.
fn intern_text(
    alloc: Global,
    atoms: &mut Atoms,
    units: &[u16],
    place: usize,
) -> Result<u32, AllocError>
    requires few { length atoms.old < 2 ^ 32 - 1 }
    requires apart { AreWithoutEquals atoms.old }
    ensures ok { IfOk result (Interns atoms.old atoms.new units.now) }
    ensures err { OnErr result (atoms.new ≡ atoms.old) }
    ensures apart { AreWithoutEquals atoms.new }
{
    if let Some(atom) = atom_standing(atoms, units, place) {
        return Ok(atom);
    }
    let atom = atoms.intern(alloc, units)?;
    Ok(atom)
}

/// Interns each of these texts, and answers their atoms. After an error some of them may be there.
pub(crate) fn intern_all(
    alloc: Global,
    atoms: &mut Atoms,
    texts: &[Text],
) -> Result<Vec<u32>, AllocError>
    requires few { length atoms.old + length texts.now < 2 ^ 32 - 1 }
    requires apart { AreWithoutEquals atoms.old }
    ensures numbers { IfOk result (λ numbers. AreAtoms texts.now atoms.new numbers.items) }
    ensures texts { TakesIn atoms.old texts.now atoms.new }
    ensures few { length atoms.new ≤ length atoms.old + length texts.now }
{
    let mut numbers = Vec::with_capacity(alloc, texts.len())?;
    for text in texts {
        let number = intern_text(alloc, atoms, text.units(), numbers.len())?;
        numbers.push(number)?;
    }
    Ok(numbers)
}

/// The atoms of the known words, and these after them.
pub(crate) fn with_known_places(alloc: Global, atoms: &[u32]) -> Result<Vec<u32>, AllocError>
    ensures { IfOk result (λ all. all.items ≡ known_places ++ atoms.now) }
{
    let mut all = Vec::with_capacity(alloc, KNOWN_WORDS + atoms.len())?;
    all.extend_from_slice(&KNOWN_PLACES)?;
    all.extend_from_slice(atoms)?;
    Ok(all)
}

/// The places of these texts, which are their atoms among themselves.
pub(crate) fn own_places(alloc: Global, texts: &[Text]) -> Result<Vec<u32>, AllocError>
    requires { length texts.now < 2 ^ 32 }
    ensures { IfOk result (λ numbers. AreAtoms texts.now texts.now numbers.items) }
{
    let mut numbers = Vec::with_capacity(alloc, texts.len())?;
    for place in 0..texts.len() {
        numbers.push(place as u32)?;
    }
    Ok(numbers)
}

/// The other atom of the text that has this one, by these; an atom that is no text's becomes one that is none's either.
pub(crate) fn atom_at(atoms: &[u32], atom: usize) -> u32
    ensures { result ≡ atom_by atoms.now atom }
{
    match atoms.get(atom) {
        Some(other) => *other,
        None => u32::MAX,
    }
}
