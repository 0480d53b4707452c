//! Which command is done.

use crate::diff::diff_files;
use crate::explain::explain_all;
use crate::files::answer_files;
use crate::report::report_files;
use crate::save::save_file;
use crate::screen::{Surroundings, Terminals};
use crate::status::Status;
use crate::task::Task;
use crate::verdict::Judge;
use holzikra_words::{Request, read_words};
use std::io;
use std::io::ErrorKind;
use std::rt::Runtime;

/// Does what was asked for.
fn perform<R: Runtime + AllocGlobal, J: Judge>(
    rt: &R,
    judge: &J,
    request: &Request,
    around: Surroundings,
) -> io::Result<Status> {
    match request {
        Request::Check(options) => answer_files(rt, judge, Task::Check(options), around),
        Request::Code(options) => answer_files(rt, judge, Task::Code(options), around),
        Request::Scopes(options) => answer_files(rt, judge, Task::Scopes(options), around),
        Request::Stats(options) => answer_files(rt, judge, Task::Stats(options), around),
        Request::Diff(options) => diff_files(rt, judge, options, around),
        Request::Report(options) => report_files(rt, judge, options, around),
        Request::Save(options) => save_file(rt, judge, options),
        Request::Load(options) => answer_files(rt, judge, Task::Load(options), around),
        Request::Verify(options) => answer_files(rt, judge, Task::Verify(options), around),
        Request::Explain(options) => explain_all(rt, options, around),
    }
}

/// What the program ends with where a command ends so.
fn status_of(done: io::Result<Status>) -> Status {
    match done {
        Ok(status) => status,
        Err(error) => {
            if error.kind() == ErrorKind::OutOfMemory {
                Status::NoMemory
            } else {
                Status::Trouble
            }
        }
    }
}

/// Says what is wrong with the words, or the help or the version that they ask for.
fn say<R: Runtime + AllocGlobal>(rt: &R, error: clap::Error) -> Status {
    let shown = error.print(rt);
    if error.kind() == clap::error::ErrorKind::OutOfMemory {
        Status::NoMemory
    } else if error.use_stderr() {
        Status::Trouble
    } else {
        status_of(shown.map(|_| Status::Fine))
    }
}

/// Does what the words behind the program's name ask for, with this judge. Help and the version go to standard output, what is wrong
/// with the words to standard error.
pub fn run<R: Runtime + AllocGlobal, J: Judge>(
    rt: &R,
    judge: &J,
    words: &[String],
    terminals: Terminals,
) -> Status {
    match read_words(rt.alloc(), words) {
        Ok(request) => {
            let around = Surroundings::of(rt, terminals);
            status_of(perform(rt, judge, &request, around))
        }
        Err(error) => say(rt, error),
    }
}
