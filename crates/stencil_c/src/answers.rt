//! What an export answers.

ghost use Rattle.std.specs.Prelude.{◌≡◌};
ghost use Rattle.stencil_c.specs.Answers as defined;

use stencil::{Refusal, Soundness};

/// What a text or an image comes to, in numbers alone, as C sees it. What a kind does not speak of is 0.
#[repr(C)]
#[derive(Debug, Clone, Copy, PartialEq, Eq)]
pub struct StencilAnswer {
    /// 0 fine, 1 too long, 2 not UTF-8, 3 an unexpected token, 4 too deep, 5 an early error, 6 a wanted function that is not there,
    /// 7 no image, 8 unsound code, 9 want of memory, 10 the room is too small.
    pub kind: u32,
    /// The number of the early error's rule, 1 to 14.
    pub rule: u32,
    /// Where the text is refused, in bytes from its beginning.
    pub offset: u64,
    /// With kind 0 the number of functions of a text, or the greatest depth of the stack of an image's code; with kind 6 the number
    /// that no function has, and with kind 8 that of the script whose code is unsound.
    pub count: u64,
    /// How many bytes the image or the listing has, with kinds 0 and 10.
    pub needed: u64,
}

/// An answer of this kind, which speaks of nothing else.
pub(crate) fn plain(kind: u32) -> StencilAnswer
    ensures { result ≡ defined.plain kind }
{
    StencilAnswer {
        kind,
        rule: 0,
        offset: 0,
        count: 0,
        needed: 0,
    }
}

/// Fine, with a number.
pub(crate) fn counted(count: u64) -> StencilAnswer
    ensures { result ≡ defined.counted count }
{
    StencilAnswer { count, ..plain(0) }
}

/// A text is refused.
pub(crate) fn refused(why: Refusal) -> StencilAnswer
    ensures { result ≡ defined.refused why }
{
    match why {
        Refusal::TooLong => plain(1),
        Refusal::BadUtf8 { offset } => at(2, offset),
        Refusal::Unexpected { offset } => at(3, offset),
        Refusal::TooDeep { offset } => at(4, offset),
        Refusal::Early { offset, rule } => StencilAnswer {
            rule: u32::from(rule),
            ..at(5, offset)
        },
        Refusal::NoFunction { number } => StencilAnswer {
            count: u64::from(number),
            ..plain(6)
        },
    }
}

fn at(kind: u32, offset: u32) -> StencilAnswer
    ensures { result ≡ defined.at kind offset }
{
    StencilAnswer {
        offset: u64::from(offset),
        ..plain(kind)
    }
}

/// Whether the code of an image may run.
pub(crate) fn judged(soundness: Soundness) -> StencilAnswer
    ensures { result ≡ defined.judged soundness }
{
    match soundness {
        Soundness::Sound { depth } => counted(depth),
        Soundness::Unsound { script } => StencilAnswer {
            count: script as u64,
            ..plain(8)
        },
    }
}
