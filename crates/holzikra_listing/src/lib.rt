//! The listing of a script's code with notes for people: names, places, where jumps come from, what is not reached.
//!
//! It stands on the plain listing (script_image) and on the environments of code (holzikra_flow), below
//! the program for people. Each line of the plain listing is there unchanged; behind it may stand blanks, `; ` and a note,
//! and lines that begin with `#` are added.
//!
//! The main contract: of the answer of [`noted_listing`], with the notes and the added lines taken off, the plain listing is left, byte
//! by byte (`without_notes` of `specs/Notes.antt`). The text is made from the lines of the plain listing, then its notes are taken
//! off again and the rest is compared; were it another, the answer would be the plain listing itself, and say so. The words of
//! notes are only tested.
#![tactic(auto)]

mod listing;
mod notes;
mod page;
mod slots;
mod taking;

pub use listing::{Listing, Options, noted_listing};
pub use taking::without_notes;
