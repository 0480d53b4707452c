//! Early errors and offsets, of which the first is kept.

ghost use Rattle.std.specs.Prelude.{◌≡◌, ◌++◌, List};
ghost use Rattle.std.specs.List.{flat_map};
ghost use Rattle.script_grammar.specs.Interpretation.{Interpretation};
ghost use Rattle.script_grammar.specs.Shows.{ShowAll};
ghost use Rattle.script_grammar.specs.Tree.{Stmts};
ghost use Rattle.parse_track.specs.EarlyErrors.{error_of, smaller, sooner};
ghost use Rattle.parse_track.specs.Notes.{error_if, first_note, notes_stmts};
ghost use Rattle.parse_early_handler.specs.HasErrors.{HasEmptyBodies, HasErrorsBody};
ghost use Rattle.parse_early_handler.specs.Known.{KnowsWords, known_atoms};

use crate::nodes::BodyErrors;
use parse_track::region::Early;

/// Of two early errors the first: the one of smaller offset, of equal offsets the one of smaller rule.
pub fn sooner(x: Option<Early>, y: Option<Early>) -> Option<Early>
    ensures { result ≡ sooner x y }
{
    match (x, y) {
        (None, y) => y,
        (x, None) => x,
        (Some(a), Some(b)) => {
            if b.offset < a.offset || (b.offset == a.offset && b.rule < a.rule) {
                y
            } else {
                x
            }
        }
    }
}

/// The smaller of two offsets.
pub fn smaller(x: Option<u32>, y: Option<u32>) -> Option<u32>
    ensures { result ≡ smaller x y }
{
    match (x, y) {
        (None, y) => y,
        (x, None) => x,
        (Some(a), Some(b)) => Some(a.min(b)),
    }
}

/// The early error of a rule at an offset, where the rule is broken.
pub fn error_if(broken: bool, rule: u8, offset: u32) -> Option<Early>
    ensures { result ≡ first_note (error_if broken rule offset) }
{
    if broken {
        Some(Early { offset, rule })
    } else {
        None
    }
}

/// The early error of a rule at an offset, where there is one.
pub fn error_of(rule: u8, offset: Option<u32>) -> Option<Early>
    ensures { result ≡ error_of rule offset }
{
    match offset {
        None => None,
        Some(offset) => Some(Early { offset, rule }),
    }
}

/// The first early error in the statements of a script and in those of its deferred bodies, of the rules that look at no
/// region; rule 14 in deferred bodies left out.
pub fn first_of_bodies(top: BodyErrors, bodies: &[BodyErrors]) -> Option<Early>
    ensures { (i : Interpretation) (items : Stmts) (deferred : List Stmts) → HasEmptyBodies i → KnowsWords i known_atoms
        → HasErrorsBody i top items → ShowAll (HasErrorsBody i) bodies.now deferred
        → result ≡ first_note (notes_stmts items ++ flat_map notes_stmts deferred) }
{
    let mut first = top.first;
    for body in bodies {
        first = sooner(first, body.first);
    }
    first
}
