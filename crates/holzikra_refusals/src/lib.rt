//! The words of refusals: the codes that `holzikra` shows, what each means, and what it says of a place in a text.
//!
//! It stands on holzikra_places alone, and knows nothing of how a text is refused: its caller, holzikra_session, has the refusals
//! of the library `stencil`, and asks here for the code and the words of each. The codes E1 to E14 are the rules of early errors
//! by their numbers. P1 to P18 name forms of ECMAScript that the scripts of this project do not have: which of them it is, or none,
//! is guessed from the refused token and what stands in front of it ([`shown_code`]). Which other place a refusal speaks of, as the first
//! declaration of a name, is guessed from the tokens in front of it ([`note_of`]). All of this is words, and only tested.
#![tactic(auto)]

mod before;
mod code;
mod entries;
mod form;
mod messages;
mod notes;
mod numbers;
mod strings;
mod tokens;

pub use code::{Code, Form, Rule, code_named};
pub use entries::{Entry, all_entries, entry_of};
pub use form::shown_code;
pub use messages::{message, name_at};
pub use notes::{Note, note_of};
