//! The walk: a piece, pieces, and the next body.

ghost use Rattle.std.specs.Prelude.{◌≡◌, ◌<◌, ◌≤◌, ◌^◌, ℕ, List, length, None, IsSome, OnOk, reverse, true, []};
ghost use Rattle.script_grammar.specs.Braced.{in_stmts};
ghost use Rattle.script_grammar.specs.Interpretation.{Interpretation};
ghost use Rattle.script_grammar.specs.Shows.{ShowAll};
ghost use Rattle.script_grammar.specs.Tree as model;
ghost use Rattle.parse_track.specs.Log.{entered, label_of, left, with_leaf};
ghost use Rattle.parse_track.specs.Tells.{tells_script};
ghost use Rattle.parse_track.specs.Told as told;
ghost use Rattle.parse_track.specs.declared.region.Region.TheVariants as kind;
ghost use Rattle.track_log_laws.specs.Spelled.{log_text, logged};
ghost use Rattle.parse_track_pieces.specs.Walks.{HasNumbers, HasScriptNumbers, Stays, KnowsThis, Walks};
ghost use Rattle.parse_track_pieces.specs.Pieces.{piece_says, pieces_say, says_passed, says_read};
ghost use Rattle.parse_track_pieces.specs.Says.{SaysBody};
ghost use Rattle.parse_track_pieces.specs.Weight.{weight};

use crate::piece::{Piece, ToldJump};
use parse_track::region::Region;
use parse_track::track::Track;
use std::alloc::AllocError;

// For so many pieces a track needs no room beforehand.
const FEW: usize = 4;

// Where there are more pieces than this, the list of their items grows as they are told: it is seldom moved then, and takes the memory that
// told pieces gave back.
const MANY: usize = 64;

// Whether a piece tells one item of the region where it stands.
fn is_item(piece: &Piece) -> bool {
    match piece {
        Piece::Declared { .. } => true,
        Piece::Used { .. } => true,
        Piece::This => true,
        Piece::Jumped(_) => true,
        Piece::Inside(_) => true,
        Piece::EmptyBlock => true,
        Piece::Many(_) => false,
        Piece::Passed { .. } => false,
        Piece::Kept(_) => false,
    }
}

// Makes room in the present region for the items that these pieces tell, where there are more than a few and not too many.
fn make_room(pieces: &[Piece], track: &mut Track) -> Result<(), AllocError>
    ensures { track.new ≡ track.old }
{
    if pieces.len() > FEW && pieces.len() <= MANY {
        let items = pieces.iter().filter(|piece| is_item(piece)).count();
        track.reserve(items)?;
    }
    Ok(())
}

// A piece.
#[cycle(telling)]
#[tactic(auto, using(crate::proofs::Numbers::numbers_inside, crate::proofs::Numbers::numbers_many, crate::proofs::Numbers::numbers_passed, crate::proofs::Numbers::numbers_kept))]
fn tell_piece(piece: Piece, track: &mut Track, bodies: &mut Vec<Piece>) -> Result<(), AllocError>
    requires present { IsSome track.old.present }
    requires numbers { HasNumbers track.old bodies.old.items (λ i. piece_says i piece) }
    ensures stays { OnOk result (Stays track.old track.new) }
    ensures lighter { OnOk result (weight bodies.new.items ≤ weight bodies.old.items) }
    ensures tells { OnOk result ((i : Interpretation) → Walks i track.old track.new bodies.old.items bodies.new.items (piece_says i piece)) }
{
    match piece {
        Piece::Declared { how, name } => Ok(track.declare(how, name)?),
        Piece::Used { atom } => Ok(track.used(atom)?),
        Piece::This => Ok(tell_this(track)?),
        Piece::Jumped(jump) => Ok(tell_jump(Box::into_inner(jump), track)?),
        Piece::Inside(region) => {
            let (head, pieces) = Box::into_inner(region);
            track.enter(head.kind, head.at)?;
            tell_pieces(pieces, track, bodies)?;
            track.leave();
            Ok(())
        }
        Piece::EmptyBlock => Ok(tell_empty_block(track)?),
        Piece::Many(pieces) => Ok(tell_pieces(Box::into_inner(pieces), track, bodies)?),
        Piece::Passed { .. } => Ok(tell_next(track, bodies)?),
        Piece::Kept(pieces) => Ok(tell_kept(Box::into_inner(pieces), track, bodies)?),
    }
}

// Pieces, one after the other.
#[cycle(telling)]
fn tell_pieces(
    pieces: Vec<Piece>,
    track: &mut Track,
    bodies: &mut Vec<Piece>,
) -> Result<(), AllocError>
    requires present { IsSome track.old.present }
    requires numbers { HasNumbers track.old bodies.old.items (λ i. pieces_say i pieces.items) }
    ensures stays { OnOk result (Stays track.old track.new) }
    ensures lighter { OnOk result (weight bodies.new.items ≤ weight bodies.old.items) }
    ensures tells { OnOk result ((i : Interpretation) → Walks i track.old track.new bodies.old.items bodies.new.items (pieces_say i pieces.items)) }
{
    make_room(&pieces, track)?;
    for piece in pieces {
        tell_piece(piece, track, bodies)?;
    }
    Ok(())
}

// The next of the bodies at hand; it tells nothing where none is left.
#[cycle(telling)]
fn tell_next(track: &mut Track, bodies: &mut Vec<Piece>) -> Result<(), AllocError>
    requires present { IsSome track.old.present }
    requires numbers { (start : ℕ) × HasNumbers track.old bodies.old.items (λ i. says_passed i start) }
    ensures stays { OnOk result (Stays track.old track.new) }
    ensures lighter { OnOk result (weight bodies.new.items ≤ weight bodies.old.items) }
    ensures tells { OnOk result ((i : Interpretation) (start : ℕ)
        → Walks i track.old track.new bodies.old.items bodies.new.items (says_passed i start)) }
{
    match bodies.pop() {
        Some(body) => Ok(tell_piece(body, track, bodies)?),
        None => Ok(()),
    }
}

// The pieces of a body that was read where it stands; the next of the bodies at hand is the same one, and is passed over.
#[cycle(telling)]
fn tell_kept(
    pieces: Vec<Piece>,
    track: &mut Track,
    bodies: &mut Vec<Piece>,
) -> Result<(), AllocError>
    requires present { IsSome track.old.present }
    requires numbers { HasNumbers track.old bodies.old.items (λ i. says_read (pieces_say i pieces.items)) }
    ensures stays { OnOk result (Stays track.old track.new) }
    ensures lighter { OnOk result (weight bodies.new.items ≤ weight bodies.old.items) }
    ensures tells { OnOk result ((i : Interpretation)
        → Walks i track.old track.new bodies.old.items bodies.new.items (says_read (pieces_say i pieces.items))) }
{
    bodies.pop();
    tell_pieces(pieces, track, bodies)?;
    Ok(())
}

// A jump.
fn tell_jump(jump: ToldJump, track: &mut Track) -> Result<(), AllocError>
    requires { IsSome track.old.present }
    ensures { OnOk result (track.new ≡ with_leaf track.old (told.Jumped jump.word jump.at (label_of jump.label))) }
{
    track.jump(jump.word, jump.at, jump.label)?;
    Ok(())
}

// A block in which nothing stands.
fn tell_empty_block(track: &mut Track) -> Result<(), AllocError>
    requires present { IsSome track.old.present }
    requires number { length track.old.parts < 2 ^ 31 }
    ensures { OnOk result (track.new ≡ left (entered track.old kind.Block 0)) }
{
    track.enter(Region::Block, 0)?;
    track.leave();
    Ok(())
}

// A use of `this`.
fn tell_this(track: &mut Track) -> Result<(), AllocError>
    requires { IsSome track.old.present }
    ensures { OnOk result (track.new ≡ with_leaf track.old (told.Used track.old.known.this)) }
{
    let this = track.known().this;
    track.used(this)?;
    Ok(())
}

/// Tells a track a script: its piece, as the handler makes it of its statements, with the bodies of its functions in the order
/// of the source, the next one last; those inside a body stand after it, and of one function those in its parameters before
/// its own. The memory of a piece is given back when it has been told. No region is present again. The error is that memory is out.
pub fn tell_script(
    script: Piece,
    track: &mut Track,
    bodies: &mut Vec<Piece>,
) -> Result<(), AllocError>
    requires outside { track.old.present ≡ None }
    requires numbers { HasScriptNumbers track.old bodies.old.items script }
    ensures tells { OnOk result ((i : Interpretation) (items : model.Stmts) → KnowsThis i track.old → SaysBody i script items
        → ShowAll (SaysBody i) (reverse bodies.old.items) (in_stmts true items [])
        → logged (tells_script items) (log_text i track.old) ≡ log_text i track.new) }
    ensures outside { OnOk result (track.new.present ≡ None) }
    ensures known { OnOk result (track.new.known ≡ track.old.known) }
    ensures noted { OnOk result (track.new.noted ≡ track.old.noted) }
{
    track.enter(Region::Script, 0)?;
    tell_piece(script, track, bodies)?;
    track.leave();
    Ok(())
}
