//! The words that a script is asked for by their spelling, as atoms.
//!
//! It stands on parser_atoms, which names texts by atoms, and on parse_track, which says which words there are. Whoever
//! scans texts begins its list of them here, so that each of these words has an atom whether or not it is written.
//! [`known_words`] interns them first of all, so their atoms are 0 to 6; `specs/Known.antt` says which is which.
#![tactic(auto)]

ghost use Rattle.std.specs.Prelude.{◌≡◌, ◌≤◌, length, IfOk, OnOk};
ghost use Rattle.bytecode_buf.specs.InRange.{TextsSmall};
ghost use Rattle.parser_atoms.specs.Places.{AreWithoutEquals};
ghost use Rattle.track_atoms.specs.Known.{HasWords, known_atoms};

use parse_track::region::WellKnownAtoms;
use parser_atoms::Atoms;
use scope_analysis::special_names::{ARGUMENTS, THIS};
use std::alloc::{AllocError, Global};

/// `eval`, in UTF-16 units, as are those below.
const EVAL: [u16; 4] = [101, 118, 97, 108];

/// `__proto__`
const PROTO: [u16; 9] = [95, 95, 112, 114, 111, 116, 111, 95, 95];

/// `get`
const GET: [u16; 3] = [103, 101, 116];

/// `set`
const SET: [u16; 3] = [115, 101, 116];

/// `use strict`
const STRICT: [u16; 10] = [117, 115, 101, 32, 115, 116, 114, 105, 99, 116];

/// The atoms of the known words, in a list of texts that had none: 0 to 6, in the order of the fields. Only memory can fail.
pub fn known_words(alloc: Global, atoms: &mut Atoms) -> Result<WellKnownAtoms, AllocError>
    requires { length atoms.old ≡ 0 }
    ensures fixed { IfOk result (λ known. known ≡ known_atoms) }
    ensures words { IfOk result (HasWords atoms.new) }
    ensures few { OnOk result (length atoms.new ≤ 7) }
    ensures small { OnOk result (TextsSmall atoms.new) }
    ensures apart { OnOk result (AreWithoutEquals atoms.new) }
{
    let eval = atoms.intern(alloc, &EVAL)?;
    let arguments = atoms.intern(alloc, &ARGUMENTS)?;
    let this = atoms.intern(alloc, &THIS)?;
    let proto = atoms.intern(alloc, &PROTO)?;
    let get = atoms.intern(alloc, &GET)?;
    let set = atoms.intern(alloc, &SET)?;
    let strict = atoms.intern(alloc, &STRICT)?;
    Ok(WellKnownAtoms {
        eval,
        arguments,
        this,
        proto,
        get,
        set,
        strict,
    })
}
