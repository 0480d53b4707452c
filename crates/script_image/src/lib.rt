//! The listings of whole scripts, of their code and of their scopes, at once or in pieces.
//!
//! It stands above the data of stencils and their code (stencil_data, bytecode_buf), and below what prints the answer to a
//! command. It reads a merged stencil and appends to a list of bytes, some hundred at a time.
//!
//! The main contract: what [`code_text`] and [`scope_text`] append is the listing, by the definitions, of the value with
//! texts that the merged stencil stands for, and [`instructions`] counts that value's instructions. After want of memory
//! nothing is said of what was appended. [`pieces_of`] cuts a listing into pieces, and [`piece_text`] is the text of one, whoever
//! makes it: the texts of all pieces in order are the listing (`specs/Pieces.antt`). [`op_name`] is an opcode's name as a listing has it.
//! `specs/CodeLines.antt` has the lines of a script's code, `specs/ScopeLines.antt` those of its scopes, and `specs/ScriptLines.antt` the
//! lines of all scripts of a file in order: the top, functions that are compiled, and the records of the others.
#![tactic(auto)]

mod chunk;
mod code_lines;
mod counts;
mod cuts;
mod names;
mod pieces;
mod quoted;
mod scope_lines;
mod script_lines;

pub use counts::instructions;
pub use cuts::pieces_of;
pub use names::op_name;
pub use pieces::{Piece, Place, code_text, piece_text, scope_text};
pub use quoted::append_decimal;
pub use script_lines::Listing;
