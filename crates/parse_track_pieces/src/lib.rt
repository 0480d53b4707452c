//! What a script tells of its regions and names, kept in pieces until it is told to a track.
//!
//! It stands on `parse_track`, whose definitions say what a tree tells (`tells_expr` and the others of its `specs/Tells.antt`),
//! on `script_grammar`, and on `track_log_laws`. The handler of parse_skim_handler makes for each part that a parser reads a
//! piece that says what the part tells. A body that the parser passes over is a hole in the piece, which is filled where the
//! piece is told to a track and the body, read later, is at hand. Each node is moved once into the piece around it, so that the
//! pieces of a script take time and memory in proportion to the script; a piece takes 16 bytes, and only what is larger a box.
//!
//! What a piece says is defined in `specs/Pieces.antt`, and in `specs/Says.antt` when it says what a tree tells: with the bodies
//! that an interpretation gives in its holes, and its holes are, in the order of the source, the braced bodies of the tree's
//! functions.
//!
//! [`walk::tell_script`] tells a track the script of such a piece, with the pieces of the bodies in its holes: the log becomes
//! what telling the script makes of it. A piece gives its memory back when it has been told.
#![tactic(auto)]

mod params;
pub mod piece;
pub mod walk;

pub use params::has_initializer;
pub use piece::Piece;
