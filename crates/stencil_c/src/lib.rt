//! The library for programs in C and C++: four exports over [`stencil`], and no state between calls.
//!
//! It is a static library. `include/stencil.h` declares what it exports, docs/embedding.md shows a program that calls it. Each
//! export states the clauses of the call of `stencil` that it makes, over the numbers and bytes that cross to C.
//!
//! | Export | Answers |
//! |---|---|
//! | [`stencil_check`] | how many functions the script has that a text is, or why the text is refused |
//! | [`stencil_image`] | the image of the script, compiled whole, or why the text is refused |
//! | [`stencil_verify`] | whether all code of an image may run |
//! | [`stencil_listing`] | the lines of an image's code |
//!
//! A call that makes bytes writes them to the room that it is handed. Where that is too small it writes nothing, and its answer
//! says how many bytes there are.
#![tactic(auto)]

mod answers;
mod images;
mod room;
mod texts;

pub use answers::StencilAnswer;
pub use images::{stencil_listing, stencil_verify};
pub use texts::{stencil_check, stencil_image};
