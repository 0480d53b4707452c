//! The nodes of the handler. A list of statements or of arguments may be as long as the text, so a node takes little memory.

use crate::packed::Packed;
use crate::told::Told;
use parse_early_handler::{BodyErrors, ExprErrors, PropErrors, Shape};
use parse_handlers::SyntaxBody;
use parse_track_pieces::Piece;
use script_grammar::tree::Ident;

/// What is kept of an expression.
#[derive(Drop)]
pub struct SkimExpr {
    pub kept: Packed,
    /// The offset of its first token, in bytes.
    pub start: u32,
    pub shape: Shape,
}

const _: () = prove!(size_of::<SkimExpr>() == 24);

/// What is kept of a property of an object literal.
#[derive(Drop)]
pub struct SkimProp {
    pub kept: Packed,
    /// The offset of its key, in bytes, where it sets the prototype.
    pub proto: Option<u32>,
}

const _: () = prove!(size_of::<SkimProp>() == 24);

/// What is kept of a statement.
#[derive(Drop)]
pub struct SkimStmt {
    pub kept: Packed,
}

const _: () = prove!(size_of::<SkimStmt>() == 16);

/// What is kept of an expression, unpacked.
#[derive(Drop)]
pub struct WholeExpr {
    pub told: Told,
    pub errors: ExprErrors,
}

/// What is kept of a property, unpacked.
#[derive(Drop)]
pub struct WholeProp {
    pub told: Told,
    pub errors: PropErrors,
}

/// What is kept of the statements of a script or of a function's body.
#[derive(Drop)]
pub struct SkimBody {
    /// What they tell a track.
    pub told: Piece,
    /// The functions directly in them.
    pub found: SyntaxBody,
    /// Their first early error of a rule that looks at no region, and their directive.
    pub errors: BodyErrors,
}
