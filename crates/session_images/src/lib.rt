//! What is printed for a file that is taken as an image: the listing of its scripts' code, and whether that code is sound.
//!
//! It stands on the reader of images (stencil_xdr_read), the verifier of code (code_check) and the listings of scripts
//! (script_image), and meets the definitions of session_image_specs. Sessions that run a command stand on it: they write the line of
//! the file, and what is appended here after it.
//!
//! The main contract: [`append_listing`] appends the listing of what the image stands for, and [`append_verdicts`] the line of
//! each script that is compiled in it. Both answer [`ImageFault::NoImage`] only where the bytes are the image of no stencil in
//! range. Their time is linear in the bytes, but for scripts of many try notes, as code_check says.
//!
//! Bytes have one listing (`proofs/OneListing.antt`) and one list of verdicts (`proofs/OneVerdict.antt`): an image names the texts
//! of a stencil in an order of its own, so two stencils of one image may number their texts differently, and nothing else may
//! differ (stencil_xdr_read). Their codes do the same steps (`proofs/SameSteps.antt`), and so have one verdict
//! (`proofs/SameVerdict.antt`).
#![tactic(auto)]

mod listing;
mod verdicts;

pub use listing::append_listing;
pub use stencil_xdr_read::ImageFault;
pub use verdicts::append_verdicts;
