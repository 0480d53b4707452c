//! How a person is told of the functions, the names and the places of a script.
//!
//! It stands on the data of stencils and on holzikra_places, below what lists code, draws scopes and counts for people. Nothing here judges a script:
//! it puts words to what a merged stencil has. A source text is not needed: where it is at hand, a [`Source`] says in which
//! line an offset is.
//!
//! The main contract: what is appended is appended to what was there. Texts of a script are not trusted by a terminal, so
//! [`append_name`] lets through no quotation mark and no character that holzikra_places names hidden.
#![tactic(auto)]

mod functions;
mod names;
mod source;

pub use functions::{append_function, append_owner, append_script, around_functions, kind_words};
pub use names::{append_chars, append_name, text_at};
pub use source::{NoSource, Source, Spot, append_extent, append_spot};
