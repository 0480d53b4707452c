//! What holds of code because it is put together from pieces that lie beside each other: definitions and proofs alone.
//!
//! It stands on bytecode_buf, which says what pieces of code are and how they are joined, how commands are laid out as bytes
//! and how bytes run. Its subjects are jumps that stay within the code that they stand in (`specs/Staying.antt`), and depths
//! of the stack that fit each step of the code (`specs/Depths.antt`), both for fragments of code that are then put together,
//! and for the bytes that stand for the whole.
#![tactic(auto)]
