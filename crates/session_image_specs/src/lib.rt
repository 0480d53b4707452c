//! What a file is that is taken as an image, and what is written of it: definitions alone.
//!
//! They stand above the image of a stencil (stencil_xdr_specs), what its code is listed as (script_image) and what may be said of
//! code (bytecode_buf), and below the answer to every command (session_specs). `specs/Images.antt` says of which scripts bytes are
//! the image, and which lines are written where the code of all of them is verified.
#![tactic(auto)]
