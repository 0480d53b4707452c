//! The program `holzikra`: for people, which files are scripts without errors, and what is wrong with the others.
//!
//! It stands on `stencil`, whose verdicts it shows, and on holzikra_session, which finds the files and says what is to be said. Its
//! main contract is that of [`Library`](judge::Library): the verdict on a text is the one that `stencil::check` has of its bytes
//! alone, and the place that is shown is the line and the column of its offset (`IsVerdict` of `specs/Verdicts.antt`). What it saves of a
//! text is the image of what is shown of the script (`IsSavedBy` of holzikra_session), and what it finds in an image is the verdict of
//! `stencil::verify` (`IsFound` of `specs/Images.antt`).
#![tactic(auto)]

ghost use Rattle.std.specs.Prelude.{◌≡◌};
ghost use Rattle.std.specs.Process.{exit_status};
ghost use Rattle.holzikra_session.specs.Statuses.{number_of};

mod images;
mod judge;

use holzikra_session::{Status, Terminals, run};
use judge::Library;
use std::io::{ErrorKind, IsTerminal};
use std::process::ExitCode;
use std::rt::Env;
use std::{env, io};

/// The words after the program's name.
fn words_of<R: Env + AllocGlobal>(rt: &R) -> io::Result<Vec<String>> {
    let mut words = Vec::new(rt.alloc());
    for word in env::args(rt)?.skip(1) {
        words.push(word)?;
    }
    Ok(words)
}

/// What the program ends with after a command of this status.
fn exit_code(status: Status) -> ExitCode
    ensures { exit_status result ≡ number_of status }
{
    ExitCode::from(status.number())
}

fn main(rt: HostRuntime) -> ExitCode {
    match words_of(&rt) {
        Ok(words) => {
            let terminals = Terminals {
                answers: rt.stdout().is_terminal(),
                errors: rt.stderr().is_terminal(),
            };
            exit_code(run(&rt, &Library, &words, terminals))
        }
        Err(error) => {
            if error.kind() == ErrorKind::OutOfMemory {
                exit_code(Status::NoMemory)
            } else {
                exit_code(Status::Trouble)
            }
        }
    }
}
