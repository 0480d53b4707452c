//! Why a file is refused.

use compile_first_pass::SourceFault;

/// Why a file is refused: the first of these that stands.
#[derive(Clone, Copy)]
pub enum Refusal {
    /// The files of the command up to this one have more than 16,777,215 bytes.
    TooLong,
    /// The bytes are no script without errors.
    Source(SourceFault),
    /// The script has no error, and of the numbers that are wanted this is the least that no function has.
    NoFunction { number: u32 },
    /// The bytes are the image of no stencil in range, for `load` and `verify`.
    NoImage,
}
