//! Images of merged stencils as bytes: definitions alone, computed on a small stencil.
//!
//! They stand above the data of stencils and their code (stencil_data, bytecode_buf). `specs/Image.antt` says which bytes
//! are the image of a stencil whose numbers are in range: a magic word, the texts in the order in which they are named
//! first, and then the parts.
#![tactic(auto)]
