//! Strings and template parts.
ghost use Rattle.std.specs.Prelude.{◌≡◌, ◌≤◌, ◌<◌, ◌+◌, ◌++◌, length, map, IfOk, IfSome, OnOk, take};
ghost use Rattle.std.specs.List.{prefix_len};
ghost use Rattle.unit_text.specs.Points.{code_of};
ghost use Rattle.unit_text.specs.Units.{code_units};
ghost use Rattle.script_scanner.specs.Parts.{is_plain, string_step, template_step, step_at, body_of};
ghost use Rattle.script_scanner.specs.Fits.{StepFits};
ghost use Rattle.script_scanner.specs.Reads.{ReadsBody};

use crate::blanks::{begins, line_end_length};
use crate::escapes::{Step, escape_step};
use crate::names::Spelled;
use crate::sources::Source;
use parser_atoms::{EMPTY_DIGEST, digest_with};
use std::alloc::AllocError;
use unit_text::units_of_value;

/// How a string or a template part ends.
#[derive(Clone, Copy, Debug, PartialEq, Eq)]
pub enum Ending {
    /// At this quote.
    Quote(char),
    /// At a backquote or a `${`.
    Template,
}

/// What was read of a string or a template part: its units are in a buffer.
#[derive(Clone, Copy, Debug, PartialEq, Eq)]
pub struct Extent {
    /// How many code points stand before its end.
    pub inner: usize,
    /// How many code points its end takes.
    pub closing: usize,
}

/// What the code points at the front of a string's rest do.
#[inline]
fn string_step<T: Source>(quote: char, rest: T) -> Step
    ensures value { result ≡ string_step quote (map code_of (T.points rest)) }
    ensures fits { StepFits (length (T.points rest)) result }
{
    match rest.split_first() {
        None => Step::Break,
        Some((first, others)) => {
            let code = first.code;
            if code == quote {
                Step::Close { length: 1 }
            } else if code == '\\' {
                escape_step(others)
            } else if (code == '\n') | (code == '\r') {
                Step::Break
            } else {
                Step::Add {
                    code: code as u32,
                    length: 1,
                }
            }
        }
    }
}

/// Whether a code point of a string with this quote stands for itself.
#[inline]
fn is_plain(quote: char, code: char) -> bool
    ensures { result ≡ is_plain quote code }
{
    if code == quote {
        false
    } else if code == '\\' {
        false
    } else {
        !((code == '\n') | (code == '\r'))
    }
}

/// The code points at the front of a string's rest that stand for themselves, up to the first other one.
#[tactic(auto, using(crate::proofs::Lists::prefix_more, crate::proofs::Lists::prefix_stops, crate::proofs::Lists::prefix_ends))]
pub fn plain_front<T: Source>(quote: char, rest: T) -> Spelled
    ensures value { result.length ≡ prefix_len (λ c. is_plain quote c) (map code_of (T.points rest)) }
    ensures within { result.length ≤ length (T.points rest) }
    ensures few { result.length ≤ 9223372036854775807 }
{
    let mut length = 0;
    let mut digest = EMPTY_DIGEST;
    while length < rest.count() {
        let code = rest.point_at(length).code;
        if !is_plain(quote, code) {
            break;
        }
        digest = digest_with(digest, code as u32);
        length += 1;
    }
    Spelled { length, digest }
}

/// What the code points at the front of a template part's rest do.
fn template_step<T: Source>(rest: T) -> Step
    ensures value { result ≡ template_step (map code_of (T.points rest)) }
    ensures fits { StepFits (length (T.points rest)) result }
{
    match rest.split_first() {
        None => Step::Break,
        Some((first, others)) => {
            let code = first.code;
            if code == '`' {
                Step::Close { length: 1 }
            } else if code == '$' && begins(others, b"{") {
                Step::Close { length: 2 }
            } else if code == '\\' {
                escape_step(others)
            } else if code == '\r' {
                Step::Add {
                    code: 0xA,
                    length: line_end_length(rest),
                }
            } else {
                Step::Add {
                    code: code as u32,
                    length: 1,
                }
            }
        }
    }
}

/// The steps of a string or of a template part.
#[inline]
fn step_at<T: Source>(ending: Ending, rest: T) -> Step
    ensures value { result ≡ step_at ending (map code_of (T.points rest)) }
    ensures fits { StepFits (length (T.points rest)) result }
{
    match ending {
        Ending::Quote(quote) => string_step(quote, rest),
        Ending::Template => template_step(rest),
    }
}

/// Appends the units of a code point or a lone surrogate.
#[inline]
pub fn push_code(units: &mut Vec<u16>, code: u32) -> Result<(), AllocError>
    requires { code ≤ 0x10_FFFF }
    ensures { OnOk result (units.new.items ≡ units.old.items ++ code_units code) }
{
    if code <= 0xFFFF {
        units.push(code as u16)?;
        return Ok(());
    }
    push_units(units, code)
}

// The same, for the codes that take two units, which are rare: apart so that the body above stays short.
#[cold]
fn push_units(units: &mut Vec<u16>, code: u32) -> Result<(), AllocError>
    requires { code ≤ 0x10_FFFF }
    ensures { OnOk result (units.new.items ≡ units.old.items ++ code_units code) }
{
    let (pair, count) = units_of_value(code);
    units.extend_from_slice(&pair[..usize::from(count)])?;
    Ok(())
}

/// Reads a string or a template part after what begins it, and leaves its units in the buffer.
pub fn read_body<T: Source>(
    ending: Ending,
    rest: T,
    units: &mut Vec<u16>,
) -> Result<Option<Extent>, AllocError>
    ensures value { IfOk result (λ extent. ReadsBody (body_of ending (map code_of (T.points rest))) extent units.new.items) }
    ensures within { IfOk result (λ o. IfSome o (λ extent. extent.inner + extent.closing ≤ length (T.points rest))) }
    ensures few { IfOk result (λ o. IfSome o (λ extent. extent.inner + extent.closing ≤ 9223372036854775807)) }
{
    units.clear();
    let mut at = 0;
    while at < rest.count() {
        match step_at(ending, rest.behind(at)) {
            Step::Add { code, length } => {
                push_code(units, code)?;
                at += length;
            }
            Step::Skip { length } => at += length,
            Step::Close { length } => {
                return Ok(Some(Extent {
                    inner: at,
                    closing: length,
                }));
            }
            Step::Break => return Ok(None),
        }
    }
    Ok(None)
}
