//! The library for programs that embed the compiler: one import, with what such a program asks of a text and of code.
//!
//! It stands on the crates of the compiler, whose calls it puts together, and on session_specs, whose definitions say what the command
//! line program answers: so the library and the program agree on every text. The examples stand on it, through which docs/embedding.md
//! leads, the library for C and the program for people.
//!
//! | You want | Call |
//! |---|---|
//! | to know whether a text is a script without errors | [`check`] |
//! | its code, with all of its functions or some of them | [`compile`] |
//! | its functions one by one, each when it is first called | [`Lazy`] |
//! | the instructions of a code | [`instructions`] |
//! | to know that code from elsewhere may run | [`verify`] |
//! | to keep a stencil as bytes | [`write_image`], [`read_image`] |
//!
//! A text is bytes, which need not be UTF-8 nor short: for each there is an [`Answer`], and the one error is want of memory. The main
//! contracts are these.
//!
//! - What [`check`], [`compile`] and [`Lazy::open`] refuse is refused by the definitions, for the first fault of the text (`IsAnswer`
//!   of `specs/Answers.antt`).
//! - The stencil of [`compile`] stands for what is shown of the script where these functions are wanted, and its code is sound
//!   (`IsStencilOf` of `specs/Stencils.antt`).
//! - A function of [`Lazy`] is what compiling the whole script has of it (`IsFunctionOf` of `specs/Scripts.antt`).
//! - [`verify`] answers `Sound` exactly where no code of a stencil, wherever that comes from, can take from an empty stack or leave
//!   its instructions (`IsVerdictOf` of `specs/Verified.antt`).
#![tactic(auto)]

mod answers;
mod code;
mod reading;
mod scripts;
mod verifying;

pub use answers::{Answer, Refusal};
pub use bytecode_buf::{Instr, Op};
pub use code::{CodeIter, instructions};
pub use compile_wanted::Wanted;
pub use lazy_compile::{Delazified as Function, KNOWN_WORDS};
pub use reading::check;
pub use scripts::{Lazy, compile};
pub use stencil_data as data;
pub use stencil_data::MergedStencil as Stencil;
pub use stencil_xdr_read::{ImageFault, read_image};
pub use stencil_xdr_write::write_image;
pub use verifying::{Soundness, verify};

/// The most bytes that a text may have.
pub const MOST_BYTES: usize = 16_777_215;
