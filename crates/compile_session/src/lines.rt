//! The lines that are printed for a file.

ghost use Rattle.std.specs.Prelude.{◌≡◌, ◌++◌, codes, IfOk};
ghost use Rattle.std.specs.Fmt.{decimal};
ghost use Rattle.session_specs.specs.Answer.{file_line};
ghost use Rattle.session_specs.specs.Refusals.{at_offset, refusal_line};
ghost use Rattle.compile_first_pass.specs.Passes as pass;
ghost use Rattle.compile_session.specs.Answers.{refusal_of};

use crate::refusal::Refusal;
use compile_first_pass::SourceFault;
use script_image::append_decimal;
use std::alloc::{AllocError, Global};

/// The line before the listing of a file.
pub(crate) fn file_text(alloc: Global, name: &str) -> Result<Vec<u8>, AllocError>
    ensures { IfOk result (λ text. text.items ≡ file_line name.now) }
{
    let mut out = Vec::from_slice(alloc, b"file ")?;
    out.extend_from_slice(name.as_bytes())?;
    out.extend_from_slice(b"\n")?;
    Ok(out)
}

/// The line of a script without errors, which has n functions.
pub(crate) fn fine_text(alloc: Global, name: &str, functions: usize) -> Result<Vec<u8>, AllocError>
    ensures { IfOk result (λ text. text.items ≡ name.now ++ codes ": ok, " ++ decimal functions ++ codes " functions\n") }
{
    let mut out = Vec::from_slice(alloc, name.as_bytes())?;
    out.extend_from_slice(b": ok, ")?;
    append_decimal(&mut out, functions as u64)?;
    out.extend_from_slice(b" functions\n")?;
    Ok(out)
}

/// A line that tells something of a file.
fn line_of_file(alloc: Global, name: &str, words: &[u8]) -> Result<Vec<u8>, AllocError>
    ensures { IfOk result (λ text. text.items ≡ name.now ++ words.now) }
{
    let mut out = Vec::from_slice(alloc, name.as_bytes())?;
    out.extend_from_slice(words)?;
    Ok(out)
}

/// A line that tells something of a place in a file.
fn line_of_place(
    alloc: Global,
    name: &str,
    offset: u32,
    words: &[u8],
) -> Result<Vec<u8>, AllocError>
    ensures { IfOk result (λ text. text.items ≡ at_offset name.now offset ++ words.now) }
{
    let mut out = Vec::from_slice(alloc, name.as_bytes())?;
    out.extend_from_slice(b":")?;
    append_decimal(&mut out, u64::from(offset))?;
    out.extend_from_slice(words)?;
    Ok(out)
}

/// The line that is printed for a file that is no script without errors.
fn fault_text(alloc: Global, name: &str, fault: SourceFault) -> Result<Vec<u8>, AllocError>
    ensures { IfOk result (λ text. text.items ≡ refusal_line name.now (pass.refusal_of fault)) }
{
    match fault {
        SourceFault::BadUtf8 { offset } => line_of_place(alloc, name, offset, b": not UTF-8\n"),
        SourceFault::Unexpected { offset } => {
            line_of_place(alloc, name, offset, b": unexpected\n")
        }
        SourceFault::TooDeep { offset } => line_of_place(alloc, name, offset, b": too deep\n"),
        SourceFault::Early { offset, rule } => {
            let mut out = line_of_place(alloc, name, offset, b": early error ")?;
            append_decimal(&mut out, u64::from(rule))?;
            out.extend_from_slice(b"\n")?;
            Ok(out)
        }
    }
}

/// The line that is printed for a refused file.
pub(crate) fn refusal_text(alloc: Global, name: &str, why: Refusal) -> Result<Vec<u8>, AllocError>
    ensures { IfOk result (λ text. text.items ≡ refusal_line name.now (refusal_of why)) }
{
    match why {
        Refusal::TooLong => line_of_file(alloc, name, b": too long\n"),
        Refusal::Source(fault) => fault_text(alloc, name, fault),
        Refusal::NoFunction { number } => {
            let mut out = line_of_file(alloc, name, b": no function ")?;
            append_decimal(&mut out, u64::from(number))?;
            out.extend_from_slice(b"\n")?;
            Ok(out)
        }
        Refusal::NoImage => line_of_file(alloc, name, b": no image\n"),
    }
}
