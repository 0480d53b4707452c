//! Which functions of a script are shown compiled, where some are wanted.
//!
//! It stands on compile_specs, which says what is shown of a script, and on emit_limit_laws, by which functions start at rising
//! offsets. Who compiles a script, whole or one function after another, stands on it.
//!
//! A function is shown that is wanted, and one that has a wanted one in it. Functions are told apart by their numbers, which are
//! those of the order in which they start; so where they end is all that has to be known of them. [`shown_flags`] goes once over
//! the functions, from the last to the first, and keeps the least end of a wanted one.
//!
//! The main contract is that of [`shown_flags`] (`specs/Flags.antt`), with the law that such flags are those of the definition
//! (`shown_by_flags` of `proofs/ShownFlags.antt`). `specs/Shows.antt` says of a stencil that it shows a script so.
#![tactic(auto)]

mod flags;

pub use flags::{Wanted, shown_flags};
