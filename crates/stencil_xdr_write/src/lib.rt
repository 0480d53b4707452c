//! Images of merged stencils, written.
//!
//! It stands above the data of stencils and their code (stencil_data, bytecode_buf), above texts without equals
//! (parser_atoms), above the definition of images and their reader (stencil_xdr_specs, stencil_xdr_read), and above the images of
//! values (script_image, stencil_xdr_laws), whose laws it uses; whoever keeps a stencil as a file calls it.
//!
//! The main contract: [`write_image`] answers the image of the value that a stencil stands for, whatever numbers its texts
//! have there, and it asks for nothing but that the texts can be counted. So an atom that is no text's names the empty
//! text, as it reads, and bytes after the last whole instruction of a code are left out. The image of a stencil in range is
//! the stencil's own, and that of a small script is read again. One walk hands the items of a stencil to a [sink](sink), one after
//! another, and it is gone twice. The first time the sink numbers the texts in the order in which they are named first; the second
//! time it writes the items, each text by its new number. What the numbers of the stencil fit is learned on the way, where they are read.
#![tactic(auto)]

mod code;
mod data;
mod image;
mod kinds;
mod numbering;
mod part;
mod sink;
mod stencil;
mod writer;

pub use image::write_image;
