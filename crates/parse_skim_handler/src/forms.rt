//! What the rules without regions ask of the forms of parts.

ghost use Rattle.std.specs.Prelude.{◌≡◌, false, map};
ghost use Rattle.parse_early_handler.specs.Firsts.{many_args, protos_first, start_of_first, strict_first};
ghost use Rattle.parse_skim_handler.specs.Packed.{expr_errors, prop_errors, stmt_errors};

use crate::nodes::{SkimExpr, SkimProp, SkimStmt};
use parse_early_handler::early::{smaller, sooner};
use parse_early_handler::keys::{is_seen, proto_error};
use parse_track::region::Early;

/// How many arguments there may be.
const LIMIT: usize = 65535;

/// The early error at the first argument that is one too many (rule 13).
pub(crate) fn many_args(items: &[SkimExpr]) -> Option<Early>
    ensures { result ≡ many_args (map expr_errors items.now) }
{
    match items.get(LIMIT) {
        Some(item) => Some(Early {
            offset: item.start,
            rule: 13,
        }),
        None => None,
    }
}

/// The first early error at a property that sets the prototype after the first one that does (rule 12).
pub(crate) fn later_protos(props: &[SkimProp]) -> Option<Early>
    ensures { result ≡ protos_first false (map prop_errors props.now) }
{
    let mut seen = false;
    let mut first = None;
    for prop in props {
        let proto = prop.proto;
        let error = proto_error(seen, proto);
        first = sooner(first, error);
        seen = is_seen(seen, proto);
    }
    first
}

/// The offset of the first of some expressions, in bytes; 0 where there is none.
pub(crate) fn start_of_first(items: &[SkimExpr]) -> u32
    ensures { result ≡ start_of_first (map expr_errors items.now) }
{
    match items.first() {
        Some(first) => first.start,
        None => 0,
    }
}

/// The offset of the first directive `use strict` at the head of a body, in bytes.
pub(crate) fn first_strict(items: &[SkimStmt]) -> Option<u32>
    ensures { result ≡ strict_first (map stmt_errors items.now) }
{
    let mut first = None;
    for item in items {
        let directive = item.directive();
        if directive.ends() {
            return first;
        }
        let at = directive.strict_at();
        first = smaller(first, at);
    }
    first
}
