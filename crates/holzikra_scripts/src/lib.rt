//! What the commands for people write of a compiled script, and of an image: its listing with notes, its scopes, its counts.
//!
//! It stands on the crates that list, draw and count (holzikra_listing, holzikra_scopes, holzikra_stats, holzikra_depths), and brings to
//! them the lines of the source text; and on stencil_xdr_read, which reads images. The commands stand above it: they read files and have
//! them compiled. So nothing here judges or compiles a text, and what is written is a value.
//!
//! The main contracts: what [`plain_code`] and [`plain_scopes`] write is, behind the line of the file, the listing of script_image
//! (`IsPlain` of `specs/Written.antt`); what [`noted_code`] writes is that listing with notes, where all functions are chosen
//! (`IsNoted`); what [`image_code`] writes is the same of the scripts of an image (`IsLoaded` of `specs/Images.antt`), and so of what was
//! saved what is written of the script itself (`IsLoadedBack`); what [`json_of_script`] writes is the line of the value that holzikra_objects
//! has for the script, with the places, bytes and depths of its functions (`IsJson`, `AreNotes` of `specs/Notes.antt`). Which functions
//! are chosen by their names and places is only tested, but for the one around an offset (holzikra_finding).
#![tactic(auto)]

mod choice;
mod code;
mod counts;
mod difference;
mod difference_json;
mod images;
mod json;
mod notes;
mod page;
mod scopes;
mod sections;
mod source;
mod table;

pub use choice::{Choice, Chosen, choice_of};
pub use code::{noted_code, plain_code};
pub use counts::{Row, row_line, row_of};
pub use difference::{Compared, Comparison, compare_scripts};
pub use images::image_code;
pub use json::json_of_script;
pub use page::append_page_script;
pub use scopes::{drawn_scopes, graph_of_scopes, plain_scopes};
pub use source::SourceText;
pub use table::Table;
