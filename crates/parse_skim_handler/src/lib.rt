//! The handler `Skimming`: all that a first pass keeps of a script, in one small node for each part.
//!
//! It stands on `script_grammar`, whose trait `Handler` says what each method has to do, and on `parse_track_pieces`,
//! `parse_handlers` and `parse_early_handler`, whose definitions say what a part of a script tells a track, which functions are
//! directly in it, and which early errors of the rules that look at no region it has. A parser that is generic over its
//! handler reads a script with it once, and its nodes have all three. Each node is taken once into the node around it. A part that
//! tells nothing, uses up to three names or is an empty block takes no memory of its own, and a function alone one box; what others tell is put
//! after what is there, and a long list of pieces stays together, so that time and memory are in proportion to the script.
//!
//! Its law (`specs/Skims.antt`): a node stands for the trees that the nodes of these three stand for.
#![tactic(auto)]

mod forms;
mod functions;
pub mod handler;
mod kept;
pub mod nodes;
pub mod packed;
mod parts;
pub mod told;

pub use handler::Skimming;
pub use nodes::{SkimBody, SkimExpr, SkimProp, SkimStmt};
pub use packed::Packed;
pub use told::{FunctionTold, Parts, Told};
