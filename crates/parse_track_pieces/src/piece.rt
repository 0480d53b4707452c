//! What parts of a script tell, kept until it is told.

ghost use Rattle.std.specs.Prelude.{◌≡◌, IfOk};
ghost use Rattle.script_grammar.specs.Interpretation.{Interpretation, maybe_named};
ghost use Rattle.parse_track.specs.Log.{region_of};
ghost use Rattle.parse_track.specs.Tells.{tells_jump};
ghost use Rattle.track_log_laws.specs.Spelled.{region_text};
ghost use Rattle.parse_track_pieces.specs.Pieces.{Rest, piece_says, pieces_say, says_read, says_region, telling};

use parse_track::region::{Declare, Jump, Region};
use script_grammar::tree::Ident;
use std::alloc::{AllocError, Global};

/// A jump that is told; `at` is the offset of its word, in bytes.
#[derive(Clone, Copy)]
pub struct ToldJump {
    pub word: Jump,
    pub at: u32,
    pub label: Option<Ident>,
}

/// What a region is; `at` is the offset where the parameters of a function start, in bytes, and 0 of another region.
#[derive(Clone, Copy)]
pub struct RegionHead {
    pub kind: Region,
    pub at: u32,
}

/// A piece of what a script tells a track: all that an expression, a property or a body tells, or a part of it. Nearly all of a
/// text's pieces are names, so what is larger stands in a box.
#[derive(Drop)]
pub enum Piece {
    /// A name is declared in the present region.
    Declared { how: Declare, name: Ident },
    /// A name is used, by its atom.
    Used { atom: u32 },
    /// `this` is used.
    This,
    /// A jump.
    Jumped(Box<ToldJump>),
    /// A region with what stands in it.
    Inside(Box<(RegionHead, Vec<Piece>)>),
    /// The region of a block in which nothing stands.
    EmptyBlock,
    /// Pieces, one after the other.
    Many(Box<Vec<Piece>>),
    /// The body of a function that was passed over; `start` is the offset where the function's parameters start, in bytes.
    Passed { start: u32 },
    /// The braced body of a function that was read where it stands.
    Kept(Box<Vec<Piece>>),
}

const _: () = prove!(size_of::<Piece>() == 16);

impl Piece {
    /// A jump; `at` is the offset of its word, in bytes.
    pub fn jump(
        alloc: Global,
        word: Jump,
        at: u32,
        label: Option<Ident>,
    ) -> Result<Piece, AllocError>
        ensures { IfOk result (λ piece. (i : Interpretation) (rest : Rest)
            → piece_says i piece rest ≡ telling rest (tells_jump word at (maybe_named i label) rest.told)) }
    {
        let jump = Box::new(alloc, ToldJump { word, at, label })?;
        Ok(Piece::Jumped(jump))
    }

    /// A region with what stands in it; `at` is the offset where the parameters of a function start, in bytes, and 0 of another
    /// region.
    pub fn region(
        alloc: Global,
        kind: Region,
        at: u32,
        pieces: Vec<Piece>,
    ) -> Result<Piece, AllocError>
        ensures { IfOk result (λ piece. (i : Interpretation) (rest : Rest)
            → piece_says i piece rest ≡ says_region (region_text i (region_of kind)) at (pieces_say i pieces.items) rest) }
    {
        let region = Box::new(alloc, (RegionHead { kind, at }, pieces))?;
        Ok(Piece::Inside(region))
    }

    /// Pieces, one after the other.
    pub fn many(alloc: Global, pieces: Vec<Piece>) -> Result<Piece, AllocError>
        ensures { IfOk result (λ piece. (i : Interpretation) (rest : Rest) → piece_says i piece rest ≡ pieces_say i pieces.items rest) }
    {
        let pieces = Box::new(alloc, pieces)?;
        Ok(Piece::Many(pieces))
    }

    /// The braced body of a function that was read where it stands.
    pub fn kept(alloc: Global, pieces: Vec<Piece>) -> Result<Piece, AllocError>
        ensures { IfOk result (λ piece. (i : Interpretation) (rest : Rest)
            → piece_says i piece rest ≡ says_read (pieces_say i pieces.items) rest) }
    {
        let pieces = Box::new(alloc, pieces)?;
        Ok(Piece::Kept(pieces))
    }
}
