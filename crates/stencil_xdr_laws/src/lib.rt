//! The image of a stencil depends on nothing but what the stencil stands for: definitions and proofs alone.
//!
//! A stencil numbers its texts as it happened to be made: parts compiled in another order or on other threads give other
//! numbers, and texts that nothing names. Its image must not tell. stencil_xdr_specs says what an image is and writes it; this crate
//! proves that the definition keeps that promise. It is the converse of what stencil_xdr_read proves (`one_image_one_value`): there
//! one image has one meaning, here one meaning has one image. It stands on script_image for what a stencil is listed as, and
//! on session_image_specs for what the image of a script is. Its laws:
//! - Each part of a stencil gives the same pieces, bytes and named texts, whatever the numbers (`specs/Pieces.antt`,
//!   `proofs/CodePieces.antt`, `proofs/PartPieces.antt`), and an image is written of the pieces alone (`proofs/Pieces.antt`).
//! - So the image of a stencil in range is written of what it stands for, by a definition that knows no numbers of texts
//!   (`image_as_listed`, `image_of_script` of `proofs/OneImage.antt`).
//! - Stencils in range that stand for one value have one image (`one_value_one_image`), and a script has one image
//!   (`one_script_one_image`, both of `proofs/OneImage.antt`).
//! - A small value that a stencil stands for has an image, and it is the one that is written of the value
//!   (`small_value_has_image` of `proofs/HasImage.antt`). Small is what `specs/Sizes.antt` says of values.
//!
//! The first laws use of what is in range only this, that codes are whole instructions, and it is needed: an image begins a code
//! with its length, and bytes after the last whole instruction count there, while they are no part of what the code stands for.
//!
//! The last law does not ask that the stencil is in range: its codes may name atoms that are the numbers of no texts, which read
//! as the empty text, and may have bytes after their last whole instruction. A stencil that is in range and stands for the same
//! value is made of it (`made_anew`): its texts are the empty one and those of the stencil, each once, its atoms are numbered
//! anew by their texts (`proofs/NewTexts.antt`), and its codes are the whole instructions laid out anew (`proofs/NewCode.antt`,
//! `proofs/NewParts.antt`). It asks that the codes are bytes (`specs/Bytes.antt`), as those of the program are by their type:
//! greater numbers may be read as operands for which no code in range has room, and a value with such an operand has no image
//! (`wide_has_no_image` of `proofs/WideOperands.antt`).
//!
//! A stencil is in range where its counts are small, its numbers name what is there and its code is whole (`InRange` of
//! bytecode_buf). Most of this is a matter of the value that it stands for: `specs/Sizes.antt` says it of values,
//! `specs/Texts.antt` the rest, of texts and bytes. `stencil_in_range` of `proofs/Standing.antt` joins them: a stencil that stands
//! for a small value, and whose texts and codes are as they should be, is in range.
//!
//! A stencil is in range where its counts are small, its numbers name what is there and its code is whole (`InRange` of
//! bytecode_buf). Most of this is a matter of the value that it stands for: `specs/Sizes.antt` says it of values,
//! `specs/Texts.antt` the rest, of texts and bytes. `stencil_in_range` of `proofs/Standing.antt` joins them: a stencil that stands
//! for a small value, and whose texts and codes are as they should be, is in range.
#![tactic(auto)]
