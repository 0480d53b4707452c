//! What the keys of an object literal and the names of a declaration may not be (rules 12 and 7).

ghost use Rattle.std.specs.Prelude.{◌≡◌, ◌||◌, false, map};
ghost use Rattle.script_grammar.specs.Interpretation.{Interpretation};
ghost use Rattle.parse_track.specs.Notes.{first_note, is_proto, proto_error};
ghost use Rattle.parse_early_handler.specs.Firsts.{bare_error, const_first, first_of, protos_first};
ghost use Rattle.parse_early_handler.specs.Keys.{proto_key};
ghost use Rattle.parse_early_handler.specs.Known.{KnowsWords, known_atoms};

use crate::early::{error_if, sooner};
use crate::nodes::PropErrors;
use crate::words::proto_name;
use parse_track::region::Early;
use script_grammar::node::{NodeBind, NodeKey};
use script_grammar::token::Decl;

/// The offset of a key that is `__proto__`.
pub fn proto_key<E>(key: &NodeKey<E>) -> Option<u32>
    ensures { (i : Interpretation) → KnowsWords i known_atoms → result ≡ proto_key i key.now }
{
    match key {
        NodeKey::Word(name) => proto_name(*name),
        NodeKey::Str(name) => proto_name(*name),
        NodeKey::Number { .. } => None,
        NodeKey::Computed(_) => None,
    }
}

/// The early error at a property that sets the prototype, where one before it does.
pub fn proto_error(seen: bool, at: Option<u32>) -> Option<Early>
    ensures { result ≡ first_note (proto_error seen at) }
{
    match at {
        Some(at) => error_if(seen, 12, at),
        None => None,
    }
}

/// Whether a property that sets the prototype was seen by now.
pub fn is_seen(seen: bool, at: Option<u32>) -> bool
    ensures { result ≡ seen || is_proto at }
{
    seen || at.is_some()
}

/// The first early error at a property that sets the prototype after the first one that does.
pub fn later_protos(props: &[PropErrors]) -> Option<Early>
    ensures { result ≡ protos_first false props.now }
{
    let mut seen = false;
    let mut first = None;
    for prop in props {
        let error = proto_error(seen, prop.proto);
        first = sooner(first, error);
        seen = is_seen(seen, prop.proto);
    }
    first
}

// The early error at a name without an initializer.
fn bare_error<E>(bind: &NodeBind<E>) -> Option<Early>
    ensures { result ≡ bare_error bind.now }
{
    match &bind.value {
        Some(_) => None,
        None => error_if(true, 7, bind.name.at),
    }
}

// The first early error at a name without an initializer.
fn bare_errors<E>(binds: &[NodeBind<E>]) -> Option<Early>
    ensures { result ≡ first_of (map bare_error binds.now) }
{
    let mut first = None;
    for bind in binds {
        let error = bare_error(bind);
        first = sooner(first, error);
    }
    first
}

/// The first early error at a name that `const` declares without an initializer.
pub fn const_errors<E>(decl: Decl, binds: &[NodeBind<E>]) -> Option<Early>
    ensures { result ≡ const_first decl binds.now }
{
    match decl {
        Decl::Var => None,
        Decl::Let => None,
        Decl::Const => bare_errors(binds),
    }
}
