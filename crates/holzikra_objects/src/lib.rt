//! Scripts as values of JSON, and the line of each.
//!
//! It stands on the data of stencils and their code, and on holzikra_json, below the program for people. It reads a merged stencil, and no
//! source text.
//!
//! The main contract: what [`script_line`] answers is the line (`IsLine` of holzikra_json) of the value that `specs/Objects.antt` has for
//! what the merged stencil stands for: the text by the kit's `serde_json`, of which that value is read again. In it each script has its
//! instructions, or its scopes, each once and in order.
#![tactic(auto)]

mod instructions;
mod lists;
mod notes;
mod scopes;
mod scripts;
mod texts;

pub use notes::{BindingNote, InstructionNote, ScriptNotes, Users};
pub use scripts::{kind_name, script_line};
pub use texts::name_value;
