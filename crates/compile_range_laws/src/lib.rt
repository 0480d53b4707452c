//! The stencil of a script that was compiled is in range: definitions and proofs alone.
//!
//! It stands on compile_wanted, which says when a stencil stands for what is shown of a script, and on the laws of scripts that
//! were read (emit_limit_laws, scope_closed_laws). Its laws:
//! - The code of a part makes the functions directly in it, and no others; its jumps stay within it; and it has a try note for
//!   each try statement (`proofs/FunctionCodes.antt`), of which there are no more than tokens (`proofs/TryTokens.antt`).
//! - The parent of each scope is below its own number, and scopes have no more bindings than there are names
//!   (`proofs/ScopeSizes.antt`).
//! - The function of a number is the one that starts where it says (`proofs/Numbers.antt`), so what is shown of a script
//!   that was read without an error is small and agrees with its records (`is_shown_small` of `proofs/Scripts.antt`).
//! - A stencil that stands for such values is in range, where its texts are few, short and without equals, and the atoms in its
//!   code are those of texts (`shows_in_range` of `proofs/Scripts.antt`, by laws of stencil_xdr_laws).
#![tactic(auto)]
