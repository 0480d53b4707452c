//! Code of expressions: what an expression, a name among them, is as instructions.
//!
//! It stands between the scopes of a place of the source and the code of statements. Its definitions give the code of
//! every form of an expression, one equation for each (`specs/Exprs.antt`), and of names by where they live
//! (`specs/Names.antt`); each part's code is a list of pieces, so that an expression's equation lands the jumps that its
//! parts left waiting.
//!
//! Its main contract: `expr` appends the code of a whole expression, as that code is defined for what the tree stands
//! for, under the chain of scopes around it. `read`, `base`, `write` and `init` do so for a name that lives at a given
//! place.
#![tactic(auto)]

mod counts;
mod emit;
mod exprs;
mod literals;
mod names;
mod places;
mod properties;
pub mod scenes;
mod shortcuts;
mod site;
pub mod steps;
mod targets;
mod updates;
mod uses;
mod values;

pub use emit::{Emit, base, expr, init, read, write};
pub use exprs::emit_expr;
pub use literals::lambda;
pub use names::{Access, init_at};
pub use places::target_of;
pub use properties::Defines;
pub use site::Site;
pub use targets::Target;
pub use uses::Use;
