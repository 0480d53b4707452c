//! Lines and columns of a source text, and the line of a place as it is shown to a person.
//!
//! It stands on no crate of this project. Lines end as ECMA-262, clause 12.3, has it; columns count 16-bit units of UTF-16, as
//! editors do. Its main contract is that of [`Lines::place_of`]: the line and the column of an offset are those of `IsPlace` of
//! `specs/Places.antt`, and no other code point has the same. [`TextPlaces`] answers the same of a text with long lines, in bounded time.
//! Which characters are not shown as themselves is said here once, by [`is_hidden`] (`specs/Shown.antt`).
#![tactic(auto)]

mod excerpt;
mod lines;
mod shown;
mod text_places;

pub use excerpt::{Excerpt, excerpt_at};
pub use lines::{Lines, Place};
pub use shown::{is_hidden, push_shown, push_shown_text};
pub use text_places::TextPlaces;
