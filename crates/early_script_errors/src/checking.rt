//! A script, checked.

ghost use Rattle.std.specs.Prelude.{◌≡◌, ℕ, List, map, None, IfOk};
ghost use Rattle.script_grammar.specs.Tree.{Stmts};
ghost use Rattle.parse_track.specs.Counted.{function_count};
ghost use Rattle.parse_track.specs.Notes.{early_error, closed_names};
ghost use Rattle.parse_track.specs.Scopes.{bounds_of};
ghost use Rattle.parse_track.specs.Tells.{tells_script};
ghost use Rattle.track_renaming_laws.specs.Renaming.{renamed_bound};
ghost use Rattle.track_renaming_laws.specs.Texts.{text_at};
ghost use Rattle.early_script_errors.specs.Told.{AreOfFew, IsOf, IsTold, IsTrackOf, IsTrackOfFew};

use parse_track::region::{ClosedAt, Early, WellKnownAtoms};
use parse_track::track::Track;
use parse_track_pieces::Piece;
use parse_track_pieces::walk::tell_script;
use std::alloc::{AllocError, Global};

/// What is found in a script.
#[derive(Drop)]
pub struct Checked {
    /// Its first early error, the one of smallest offset and then of smallest rule.
    pub early: Option<Early>,
    /// How many functions it has, at all depths.
    pub functions: usize,
    /// The names that inner functions close over, in the order of functions, scopes and bindings.
    pub closed: Vec<ClosedAt>,
}

/// Checks the script whose statements `top` says, with the pieces of the bodies of its functions, in the order of the source,
/// those inside a body after it. `known` has the atoms of the known words, and `first` is the script's first early error of
/// a rule that looks at no region. The script tells fewer than 2^31 regions, as each within the limit of a file does.
pub fn check_told(
    alloc: Global,
    known: WellKnownAtoms,
    top: Piece,
    bodies: Vec<Piece>,
    first: Option<Early>,
) -> Result<Checked, AllocError>
    requires { AreOfFew known top bodies.items first }
    ensures early { IfOk result (λ checked. (texts : List (List ℕ)) (items : Stmts) → IsOf texts known items
        → IsTold texts top bodies.items first items → checked.early ≡ early_error items) }
    ensures functions { IfOk result (λ checked. (texts : List (List ℕ)) (items : Stmts) → IsOf texts known items
        → IsTold texts top bodies.items first items → checked.functions ≡ function_count (tells_script items)) }
    ensures closed { IfOk result (λ checked. (texts : List (List ℕ)) (items : Stmts) → IsOf texts known items
        → IsTold texts top bodies.items first items → map (renamed_bound (text_at texts)) (bounds_of checked.closed.items) ≡ closed_names items) }
{
    let track = told_track(alloc, known, top, bodies, first)?;
    let checked = check_track(track)?;
    Ok(checked)
}

/// The first early error of the script that [`check_told`] checks, in less time: the names that inner functions close over are
/// not looked for.
pub fn first_early_error(
    alloc: Global,
    known: WellKnownAtoms,
    top: Piece,
    bodies: Vec<Piece>,
    first: Option<Early>,
) -> Result<Option<Early>, AllocError>
    requires { AreOfFew known top bodies.items first }
    ensures { IfOk result (λ early. (texts : List (List ℕ)) (items : Stmts) → IsOf texts known items
        → IsTold texts top bodies.items first items → early ≡ early_error items) }
{
    let track = told_track(alloc, known, top, bodies, first)?;
    let early = track.first_error()?;
    Ok(early)
}

/// A track that was told the script of these pieces and nothing else, with its first early error of a rule that looks at no
/// region.
fn told_track(
    alloc: Global,
    known: WellKnownAtoms,
    top: Piece,
    mut bodies: Vec<Piece>,
    first: Option<Early>,
) -> Result<Track, AllocError>
    requires { AreOfFew known top bodies.items first }
    ensures { IfOk result (λ track. (texts : List (List ℕ)) (items : Stmts) → IsOf texts known items
        → IsTold texts top bodies.items first items → IsTrackOf texts track items) }
{
    bodies.reverse();
    let mut track = Track::new(alloc, known);
    tell_script(top, &mut track, &mut bodies)?;
    note_first(&mut track, first);
    Ok(track)
}

/// Notes the first early error that looks at no region, where there is one.
fn note_first(track: &mut Track, first: Option<Early>)
    requires { track.old.noted ≡ None }
    ensures { track.new ≡ record track.old { noted = first } }
{
    if let Some(early) = first {
        track.note(early.offset, early.rule);
    }
}

/// Checks the script that the track was told, and nothing else.
fn check_track(track: Track) -> Result<Checked, AllocError>
    requires { IsTrackOfFew track }
    ensures early { IfOk result (λ checked. (texts : List (List ℕ)) (items : Stmts) → IsTrackOf texts track items
        → checked.early ≡ early_error items) }
    ensures functions { IfOk result (λ checked. (texts : List (List ℕ)) (items : Stmts) → IsTrackOf texts track items
        → checked.functions ≡ function_count (tells_script items)) }
    ensures closed { IfOk result (λ checked. (texts : List (List ℕ)) (items : Stmts) → IsTrackOf texts track items
        → map (renamed_bound (text_at texts)) (bounds_of checked.closed.items) ≡ closed_names items) }
{
    let functions = track.functions();
    let tracked = track.finish()?;
    Ok(Checked {
        early: tracked.early,
        functions,
        closed: tracked.closed,
    })
}
