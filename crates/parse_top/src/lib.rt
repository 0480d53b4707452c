//! The statements of a script itself, read from its tokens with the bodies of all functions passed over.
//!
//! It stands on `parse_script`, which has the tokens of a file and says what they are read as, and on `parse_bodies`, whose
//! `scripts::script` reads a script and passes bodies over. Who reads a file first without trees, and then wants the trees of
//! what the script itself does, stands on it.
//!
//! The main contract is that of [`read_top`]. Where the tokens are known to be a script, as an earlier reading of them says,
//! the handler's node stands for the script's statements, in which the body of a function in braces has the statements that the
//! interpretation gives to it, whatever these are (`ShowsTop` of specs/Top.antt). Only want of memory refuses.
#![tactic(auto)]

mod top;

pub use top::read_top;
