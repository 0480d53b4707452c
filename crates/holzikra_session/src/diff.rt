//! The command `diff`.

use crate::complaint::complain;
use crate::images::image_line;
use crate::json;
use crate::reading::{image_of, input_image};
use crate::refusal::{Said, Showing, answer_refused};
use crate::screen::{Surroundings, print_answer};
use crate::status::{Status, Tally};
use crate::verdict::{Compiled, Judge, Reason, Verified};
use holzikra_colours::Answer;
use holzikra_scripts::{Compared, compare_scripts};
use holzikra_words::{DiffFormat, DiffOptions, Format, VerifyFormat};
use std::io;
use std::io::{ErrorKind, Write};
use std::rt::Runtime;
use stencil_data::MergedStencil;
use stencil_xdr_read::{ImageFault, read_image};

/// The end of the names of files that are taken as images whatever they hold.
const IMAGE_END: &str = ".stn";

/// A file that is compared.
#[derive(Drop)]
struct File<'a> {
    name: &'a str,
    bytes: Vec<u8>,
}

/// What a file is found to be.
#[derive(Drop)]
enum Side {
    /// A script, which was compiled whole.
    Script(MergedStencil),
    /// The image of a script, all code of which is sound.
    Image(MergedStencil),
    /// Neither, which is written.
    Refused,
}

/// Says that a file cannot be read. Want of memory ends the command.
fn fault<R: Runtime + AllocGlobal>(
    rt: &R,
    format: DiffFormat,
    name: &str,
    error: io::Error,
) -> io::Result<()> {
    if error.kind() == ErrorKind::OutOfMemory {
        return Err(error);
    }
    let why = format!(in rt.alloc(); "{error}")?;
    complain(rt, name, why.as_str())?;
    match format {
        DiffFormat::Human => Ok(()),
        DiffFormat::Json => {
            let line = json::unreadable_line(rt.alloc(), name, why.as_str())?;
            io::writer(rt).write_all(line.as_bytes())
        }
    }
}

/// The file that a word names; none where it cannot be read, which is said.
fn file_of<'a, R: Runtime + AllocGlobal>(
    rt: &R,
    format: DiffFormat,
    word: &'a str,
    stdin_name: &'a str,
) -> io::Result<Option<File<'a>>> {
    let (name, read) = if word == "-" {
        (stdin_name, input_image(rt))
    } else {
        (word, image_of(rt, word))
    };
    match read {
        Ok(bytes) => Ok(Some(File { name, bytes })),
        Err(error) => {
            fault(rt, format, name, error)?;
            Ok(None)
        }
    }
}

/// How refusals are shown where differences are written so.
fn refusal_format(format: DiffFormat) -> Format {
    match format {
        DiffFormat::Human => Format::Human,
        DiffFormat::Json => Format::Json,
    }
}

/// How the verdict on an image is written there.
fn verdict_format(format: DiffFormat) -> VerifyFormat {
    match format {
        DiffFormat::Human => VerifyFormat::Human,
        DiffFormat::Json => VerifyFormat::Json,
    }
}

/// Writes why a text is refused, as `check` does.
fn refuse<R: Runtime + AllocGlobal>(
    rt: &R,
    format: DiffFormat,
    colors: bool,
    file: &File<'_>,
    reason: Reason,
) -> io::Result<()> {
    let alloc = rt.alloc();
    let mut tally = Tally::new();
    let mut said = Said::new(alloc);
    let showing = Showing::all(refusal_format(format));
    let lines = answer_refused(
        alloc,
        showing,
        file.name,
        &file.bytes,
        reason,
        &mut tally,
        &mut said,
    )?;
    print_answer(rt, colors, Answer::Refusals, lines.into_bytes())
}

/// Writes why a file is refused that is taken as an image, as `verify` does.
fn refuse_image<R: Runtime + AllocGlobal>(
    rt: &R,
    format: DiffFormat,
    colors: bool,
    file: &File<'_>,
    found: Verified,
) -> io::Result<Side> {
    let line = image_line(rt.alloc(), verdict_format(format), file.name, found)?;
    print_answer(rt, colors, Answer::Images, line.into_bytes())?;
    Ok(Side::Refused)
}

/// A text compiled whole.
fn script_of<R: Runtime + AllocGlobal, J: Judge>(
    rt: &R,
    judge: &J,
    format: DiffFormat,
    colors: bool,
    file: &File<'_>,
) -> io::Result<Side> {
    let compiled = judge.compile(rt.alloc(), &file.bytes, &[])?;
    match compiled {
        Compiled::Script(stencil, _) => Ok(Side::Script(stencil)),
        Compiled::Refused(reason) => {
            refuse(rt, format, colors, file, reason)?;
            Ok(Side::Refused)
        }
        Compiled::NoFunction(_) => unreachable!(),
    }
}

/// What a file is: an image where its bytes are one, or its name says so, and else a script.
fn side_of<R: Runtime + AllocGlobal, J: Judge>(
    rt: &R,
    judge: &J,
    format: DiffFormat,
    colors: bool,
    file: &File<'_>,
) -> io::Result<Side> {
    let found = judge.verify(rt.alloc(), &file.bytes)?;
    match found {
        Verified::Unsound { .. } => refuse_image(rt, format, colors, file, found),
        Verified::NoImage if file.name.ends_with(IMAGE_END) => {
            refuse_image(rt, format, colors, file, found)
        }
        Verified::NoImage => script_of(rt, judge, format, colors, file),
        Verified::Sound { .. } => match read_image(rt.alloc(), &file.bytes) {
            Ok(stencil) => Ok(Side::Image(stencil)),
            Err(ImageFault::NoImage) => refuse_image(rt, format, colors, file, Verified::NoImage),
            Err(ImageFault::NoMemory) => Err(ErrorKind::OutOfMemory.into()),
        },
    }
}

/// The script of a file, for comparing.
fn compared_of<'a>(file: &'a File<'_>, side: &'a Side) -> Option<Compared<'a>> {
    let (text, stencil) = match side {
        Side::Script(stencil) => (Some(file.bytes.as_slice()), stencil),
        Side::Image(stencil) => (None, stencil),
        Side::Refused => return None,
    };
    Some(Compared {
        name: file.name,
        text,
        stencil,
    })
}

/// Writes how the code of two scripts differs.
fn write_difference<R: Runtime + AllocGlobal>(
    rt: &R,
    format: DiffFormat,
    colors: bool,
    before: Compared<'_>,
    after: Compared<'_>,
) -> io::Result<Status> {
    let comparison = compare_scripts(rt.alloc(), format, before, after)?;
    print_answer(rt, colors, Answer::Difference, comparison.lines)?;
    if comparison.differs {
        Ok(Status::Refused)
    } else {
        Ok(Status::Fine)
    }
}

/// Writes how the code of a file differs from that of an older one, which is found to be this.
fn compare_with<R: Runtime + AllocGlobal, J: Judge>(
    rt: &R,
    judge: &J,
    format: DiffFormat,
    colors: bool,
    old: Option<Compared<'_>>,
    new: &File<'_>,
) -> io::Result<Status> {
    let side = side_of(rt, judge, format, colors, new)?;
    match (old, compared_of(new, &side)) {
        (Some(before), Some(after)) => write_difference(rt, format, colors, before, after),
        _ => Ok(Status::Trouble),
    }
}

/// Writes how the code of two files differs.
fn compare<R: Runtime + AllocGlobal, J: Judge>(
    rt: &R,
    judge: &J,
    options: &DiffOptions,
    old: &File<'_>,
    new: &File<'_>,
    around: Surroundings,
) -> io::Result<Status> {
    let format = options.format;
    let colors = format == DiffFormat::Human && around.colors(options.colors);
    let side = side_of(rt, judge, format, colors, old)?;
    compare_with(rt, judge, format, colors, compared_of(old, &side), new)
}

/// Compares the code of two files. The error is want of memory, or that standard output or standard error takes no more.
pub(crate) fn diff_files<R: Runtime + AllocGlobal, J: Judge>(
    rt: &R,
    judge: &J,
    options: &DiffOptions,
    around: Surroundings,
) -> io::Result<Status> {
    let stdin_name = options.stdin_name.as_str();
    let format = options.format;
    let old = file_of(rt, format, options.old.as_str(), stdin_name)?;
    let new = file_of(rt, format, options.new.as_str(), stdin_name)?;
    match (old, new) {
        (Some(old), Some(new)) => compare(rt, judge, options, &old, &new, around),
        _ => Ok(Status::Trouble),
    }
}
