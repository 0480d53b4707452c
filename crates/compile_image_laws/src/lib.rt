//! What is shown of a script without errors has an image, the one that is written of its stencil: proofs alone.
//!
//! It stands on compile_wanted, which says when a stencil stands for what is shown of a script, on compile_range_laws, by which
//! what is shown is small, on session_specs, which says which files are scripts without errors, and on session_image_specs, which
//! says what the image of a script is. compile_session stands on it.
//!
//! - Where bytes are the image of each small script that a stencil of small texts stands for, as those that `write_image` of
//!   stencil_xdr_write answers, they are the image of what is shown of the script without errors that a file is (`shown_has_image`
//!   of `proofs/Images.antt`).
#![tactic(auto)]
