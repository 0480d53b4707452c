//! The words that rules know by their spelling, as atoms.

ghost use Rattle.std.specs.Prelude.{◌≡◌, ◌&&◌, ◌-◌, bytes_eq, codes, nat_eq};
ghost use Rattle.script_grammar.specs.Interpretation.{Interpretation, text_of};
ghost use Rattle.parse_track.specs.Notes.{is_reserved};
ghost use Rattle.parse_early_handler.specs.Keys.{proto_name};
ghost use Rattle.parse_early_handler.specs.Known.{KnowsWords, known_atoms};

use script_grammar::tree::Ident;

/// `eval`
const EVAL: u32 = 0;

/// `arguments`
const ARGUMENTS: u32 = 1;

/// `__proto__`
const PROTO: u32 = 3;

/// `use strict`
const STRICT: u32 = 6;

/// The length of `use strict` in its quotes, in bytes.
const PLAIN: u32 = 12;

/// Whether a name is `eval` or `arguments`.
pub fn is_reserved(atom: u32) -> bool
    ensures { (i : Interpretation) → KnowsWords i known_atoms → result ≡ is_reserved (text_of i atom) }
{
    atom == EVAL || atom == ARGUMENTS
}

/// The offset of a name that is `__proto__`.
pub fn proto_name(name: Ident) -> Option<u32>
    ensures { (i : Interpretation) → KnowsWords i known_atoms → result ≡ proto_name i name }
{
    if name.atom == PROTO {
        Some(name.at)
    } else {
        None
    }
}

/// Whether a string from its start to after its end is `use strict`, spelled without a backslash.
pub fn is_plain_strict(at: u32, end: u32, atom: u32) -> bool
    ensures { (i : Interpretation) → KnowsWords i known_atoms → result ≡ bytes_eq (text_of i atom) (codes "use strict") && nat_eq (end - at) 12 }
{
    atom == STRICT && end.saturating_sub(at) == PLAIN
}
