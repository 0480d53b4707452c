//! The commands `load` and `verify`, for one image.

ghost use Rattle.std.specs.Prelude.{IfOk, string_bytes};
ghost use Rattle.holzikra_session.specs.Answers.{IsVerdictLine};
ghost use Rattle.holzikra_session.specs.Images.{IsImageCounted, IsListed, IsSavedCode};
ghost use Rattle.holzikra_session.specs.declared.verdict.Verified.{Verified as AnyImage};

use crate::status::Tally;
use crate::verdict::{Judge, Verified};
use crate::{human, json};
use holzikra_scripts::image_code;
use holzikra_words::{LoadFormat, VerifyFormat, VerifyOptions};
use std::alloc::{AllocError, Global};

/// How the verdict on a file is written where its listing is written so.
fn verdict_format(format: LoadFormat) -> VerifyFormat {
    match format {
        LoadFormat::Json => VerifyFormat::Json,
        LoadFormat::Human | LoadFormat::Plain => VerifyFormat::Human,
    }
}

/// Lists an image and counts it. The answer is what is to be written of it.
pub(crate) fn list_image(
    alloc: Global,
    format: LoadFormat,
    name: &str,
    image: &[u8],
    tally: &mut Tally,
) -> Result<Vec<u8>, AllocError>
    ensures listed { IfOk result (λ out. IsListed format name.now image.now tally.old tally.new out.items) }
    ensures saved { IfOk result (λ out. IsSavedCode format name.now image.now out.items) }
{
    let found = image_code(alloc, format, name, image)?;
    match found {
        Some(lines) => {
            tally.count_script();
            Ok(lines)
        }
        None => {
            tally.count_image(Verified::NoImage);
            let shown = verdict_format(format);
            let line = image_line(alloc, shown, name, Verified::NoImage)?;
            Ok(line.into_bytes())
        }
    }
}

/// The line for a verdict on an image.
pub(crate) fn image_line(
    alloc: Global,
    format: VerifyFormat,
    name: &str,
    found: Verified,
) -> Result<String, AllocError>
    ensures { IfOk result (λ line. IsVerdictLine format name.now found (string_bytes line)) }
{
    match format {
        VerifyFormat::Human => human::image_line(alloc, name, found),
        VerifyFormat::Json => {
            let line = json::image_line(alloc, name, found)?;
            Ok(line)
        }
    }
}

/// What `verify` writes of a verdict on an image: its line, but with `--quiet` no person is told of one that is sound.
fn told_line(
    alloc: Global,
    options: &VerifyOptions,
    name: &str,
    found: Verified,
) -> Result<String, AllocError> {
    match options.format {
        VerifyFormat::Human if options.look.quiet && found.is_sound() => Ok(String::new(alloc)),
        format => image_line(alloc, format, name, found),
    }
}

/// Verifies an image and counts it. The answer is what is to be written of it.
pub(crate) fn answer_image<J: Judge>(
    alloc: Global,
    judge: &J,
    options: &VerifyOptions,
    name: &str,
    image: &[u8],
    tally: &mut Tally,
) -> Result<String, AllocError>
    ensures { IfOk result (λ _. (found : AnyImage) × J.verifies judge.now image.now found × IsImageCounted found tally.old tally.new) }
{
    let found = judge.verify(alloc, image)?;
    tally.count_image(found);
    let line = told_line(alloc, options, name, found)?;
    Ok(line)
}
