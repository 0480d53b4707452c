//! What a text comes to: what was asked for of it, or why it is refused.

ghost use Rattle.std.specs.Prelude.{◌≡◌};
ghost use Rattle.compile_first_pass.specs.Passes as pass;
ghost use Rattle.stencil.specs.Refusals.{refusal_of};

use compile_first_pass::SourceFault;

/// What a text comes to.
#[derive(Debug, Drop)]
pub enum Answer<T> {
    /// It is a script without errors, and this is what was asked for of it.
    Script(T),
    /// It is refused.
    Refused(Refusal),
}

/// Why a text is refused: the first of these that stands.
#[derive(Debug, Clone, Copy, PartialEq, Eq)]
pub enum Refusal {
    /// It has more than [`MOST_BYTES`](crate::MOST_BYTES) bytes.
    TooLong,
    /// It is not UTF-8.
    BadUtf8 {
        /// The length of its longest front that is UTF-8, in bytes.
        offset: u32,
    },
    /// It is no script: none goes on with some token of it, and none before it is too deep.
    Unexpected {
        /// Where the token starts, in bytes.
        offset: u32,
    },
    /// Some token of it is too deep, and scripts go on with all before it.
    TooDeep {
        /// Where the token starts, in bytes.
        offset: u32,
    },
    /// The script has an early error of ECMA-262.
    Early {
        /// Where the first of them stands, in bytes.
        offset: u32,
        /// The number of its rule, 1 to 14, as docs/manual.md has them.
        rule: u8,
    },
    /// The script has no errors, and of the numbers that are wanted this is the least that no function has.
    NoFunction {
        number: u32,
    },
}

/// The refusal of a text with this fault.
pub(crate) fn refused_for(fault: SourceFault) -> Refusal
    ensures { refusal_of result ≡ pass.refusal_of fault }
{
    match fault {
        SourceFault::BadUtf8 { offset } => Refusal::BadUtf8 { offset },
        SourceFault::Unexpected { offset } => Refusal::Unexpected { offset },
        SourceFault::TooDeep { offset } => Refusal::TooDeep { offset },
        SourceFault::Early { offset, rule } => Refusal::Early { offset, rule },
    }
}
