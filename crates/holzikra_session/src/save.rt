//! The command `save`.

use crate::complaint::complain;
use crate::files::{bytes_of, input_bytes};
use crate::refusal::{Said, Showing, answer_refused};
use crate::status::{Status, Tally};
use crate::verdict::{Judge, Reason, Saved};
use crate::writing::write_to;
use holzikra_words::{Format, SaveOptions};
use std::io;
use std::io::ErrorKind;
use std::rt::Runtime;

/// Says that something cannot be read or written. Want of memory ends the command.
fn fault<R: Runtime + AllocGlobal>(rt: &R, name: &str, error: io::Error) -> io::Result<Status> {
    if error.kind() == ErrorKind::OutOfMemory {
        return Err(error);
    }
    let why = format!(in rt.alloc(); "{error}")?;
    complain(rt, name, why.as_str())?;
    Ok(Status::Trouble)
}

/// Says why a text is refused.
fn refused<R: Runtime + AllocGlobal>(
    rt: &R,
    name: &str,
    text: &[u8],
    reason: Reason,
) -> io::Result<Status> {
    let alloc = rt.alloc();
    let mut tally = Tally::new();
    let mut said = Said::new(alloc);
    let showing = Showing::all(Format::Human);
    let lines = answer_refused(alloc, showing, name, text, reason, &mut tally, &mut said)?;
    eprint!(rt; "{lines}")?;
    Ok(tally.status())
}

/// Writes the image of a text.
fn save_text<R: Runtime + AllocGlobal, J: Judge>(
    rt: &R,
    judge: &J,
    options: &SaveOptions,
    name: &str,
    text: &[u8],
) -> io::Result<Status> {
    match judge.save(rt.alloc(), text)? {
        Saved::Refused(reason) => refused(rt, name, text, reason),
        Saved::Image(image) => match write_to(rt, options.image.as_str(), &image) {
            Ok(()) => Ok(Status::Fine),
            Err(error) => fault(rt, options.image.as_str(), error),
        },
    }
}

/// Compiles a file to an image and writes that. The error is want of memory, or that standard error takes no more.
pub(crate) fn save_file<R: Runtime + AllocGlobal, J: Judge>(
    rt: &R,
    judge: &J,
    options: &SaveOptions,
) -> io::Result<Status> {
    let is_input = options.file.as_str() == "-";
    let (name, read) = if is_input {
        (options.stdin_name.as_str(), input_bytes(rt))
    } else {
        let name = options.file.as_str();
        (name, bytes_of(rt, name))
    };
    match read {
        Err(error) => fault(rt, name, error),
        Ok(text) => save_text(rt, judge, options, name, &text),
    }
}
