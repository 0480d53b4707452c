//! Texts that are generated from a number and a size, for `trial` and `churn`.
//!
//! It stands on nothing. Whoever measures a compiler, or shows that it compiles, takes its text from here: the same number and
//! size give the same text everywhere. `specs/Generated.antt` says which text: n lines of four kinds, in an order that
//! the number decides.
//!
//! The main contract: [`generated_text`] makes exactly that text, in linear time, and only memory can fail.
#![tactic(auto)]

mod lines;
mod text;

pub use text::generated_text;
