//! One page for a browser about scripts: their functions, their source, their code, their scopes and their counts.
//!
//! It stands on the words for functions and places (holzikra_names, holzikra_places) and on who closes over what (holzikra_scopes), below the
//! program for people, which hands in the listings and the tree of scopes as bytes. The page is one file without a link outside, and its
//! policy (Content Security Policy) lets a browser run no other script and use no other style than its own two. All text can be read
//! without a script; the script adds that a function, an instruction or a name is shown in all panes at once, and a search by name. A page
//! is put together file by file.
//!
//! The main contract: a text that [`append_text`] appends is escaped (`IsEscaped` of `specs/Escape.antt`): none of the characters
//! `<`, `>`, `"` and `'` is left, and read as a browser reads the references to characters in it, it is the text again. All names,
//! sources and listings go through it. What else stands on the page is only tested.
#![tactic(auto)]

mod closures;
mod escape;
mod file;
mod frame;
mod functions;
mod lines;
mod parts;

pub use escape::append_text;
pub use file::{Refusal, Shown, append_refused, append_script};
pub use frame::{append_end, append_start};
