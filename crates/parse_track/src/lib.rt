//! What a parser tells of a script while it reads it, and what follows from it: the first early error of those that
//! speak of names, regions and jumps, and the names that inner functions close over.
//!
//! It stands on script_grammar. Who has read a script (parse_track_pieces, which keeps no trees) enters and leaves regions,
//! and tells each name that is declared or used and each jump once, in the order of the source; compiling
//! takes the closed names into the record of a function. The main contract is that of `Track::finish`: over the tree of
//! regions that was told, the definitions of `specs/EarlyErrors.antt` and `specs/ClosedNames.antt`.
#![tactic(auto)]

mod atom_set;
mod atom_table;
mod clashing;
mod closed;
mod closed_names;
mod errors;
mod jumps;
mod lone;
mod names;
mod offsets;
pub mod region;
mod rules;
mod scopes;
pub mod track;
