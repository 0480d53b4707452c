//! All commands, and which of them the words name.

use crate::check::{self, CheckOptions};
use crate::code::{self, CodeOptions};
use crate::diff::{self, DiffOptions};
use crate::explain::{self, ExplainOptions};
use crate::functions;
use crate::load::{self, LoadOptions};
use crate::look::Colors;
use crate::parts::named;
use crate::report::{self, ReportOptions};
use crate::save::{self, SaveOptions};
use crate::scopes::{self, ScopesOptions};
use crate::stats::{self, StatsOptions};
use crate::verify::{self, VerifyOptions};
use clap::error::ErrorKind;
use clap::{ArgMatches, Command, Error};
use std::alloc::{AllocError, Global};

/// What `holzikra` is asked to do.
#[derive(Drop)]
pub enum Request {
    /// Say of each file whether it is a script without errors.
    Check(CheckOptions),
    /// List the code of each file.
    Code(CodeOptions),
    /// Draw the scopes of each file.
    Scopes(ScopesOptions),
    /// Count what each file has.
    Stats(StatsOptions),
    /// Compare the code of two scripts.
    Diff(DiffOptions),
    /// Write a page about each file.
    Report(ReportOptions),
    /// Compile a script to an image.
    Save(SaveOptions),
    /// List the code of each image.
    Load(LoadOptions),
    /// Say of each image whether its code is sound.
    Verify(VerifyOptions),
    /// Say what a code means.
    Explain(ExplainOptions),
}

/// What the program is called, and what it is for.
fn titled<'a>(alloc: Global) -> Command<'a> {
    let about = "looks into strict scripts: errors, scopes, bytecode";
    named(alloc, "holzikra", about).version("0.1.0")
}

/// The program wants a command, and shows help where it gets no words.
fn with_rules<'a>(program: Command<'a>) -> Command<'a> {
    let program = program.no_binary_name(true);
    program
        .subcommand_required(true)
        .arg_required_else_help(true)
}

/// The commands, in the order of the help.
fn commands<'a>(alloc: Global) -> Result<Vec<Command<'a>>, AllocError> {
    let mut commands = Vec::new(alloc);
    check::add_command(alloc, &mut commands)?;
    code::add_command(alloc, &mut commands)?;
    scopes::add_command(alloc, &mut commands)?;
    stats::add_command(alloc, &mut commands)?;
    diff::add_command(alloc, &mut commands)?;
    report::add_command(alloc, &mut commands)?;
    save::add_command(alloc, &mut commands)?;
    load::add_command(alloc, &mut commands)?;
    verify::add_command(alloc, &mut commands)?;
    explain::add_command(alloc, &mut commands)?;
    Ok(commands)
}

/// The program without its commands.
fn bare_program<'a>(alloc: Global) -> Result<Command<'a>, AllocError> {
    with_rules(titled(alloc)).bin_name("holzikra")
}

/// The program with these commands.
fn program_with<'a>(alloc: Global, commands: Vec<Command<'a>>) -> Result<Command<'a>, AllocError> {
    bare_program(alloc)?.subcommands(commands)
}

/// The program and its commands.
fn program<'a>(alloc: Global) -> Result<Command<'a>, AllocError> {
    program_with(alloc, commands(alloc)?)
}

/// The command that was found, with its options.
fn found_request(alloc: Global, matches: &ArgMatches<'_>) -> Result<Request, AllocError> {
    match matches.subcommand() {
        Some(("check", found)) => check::request(alloc, found),
        Some(("code", found)) => code::request(alloc, found),
        Some(("scopes", found)) => scopes::request(alloc, found),
        Some(("stats", found)) => stats::request(alloc, found),
        Some(("diff", found)) => diff::request(alloc, found),
        Some(("report", found)) => report::request(alloc, found),
        Some(("save", found)) => save::request(alloc, found),
        Some(("load", found)) => load::request(alloc, found),
        Some(("verify", found)) => verify::request(alloc, found),
        Some((_, found)) => explain::request(alloc, found),
        None => Ok(Request::Explain(ExplainOptions {
            codes: Vec::new(alloc),
            colors: Colors::Auto,
        })),
    }
}

/// What is wrong with the words of the command that was found, which are words that it takes.
fn complaint_of(alloc: Global, matches: &ArgMatches<'_>) -> Result<Option<String>, AllocError> {
    match matches.subcommand() {
        Some(("code" | "scopes" | "report", found)) => functions::complaint(alloc, found),
        Some(("stats", found)) => stats::complaint(alloc, found),
        Some(("diff", found)) => diff::complaint(alloc, found),
        _ => Ok(None),
    }
}

/// The error with this text.
fn error_of(alloc: Global, message: &str) -> Result<Error, AllocError> {
    let mut program = program(alloc)?;
    program.error(ErrorKind::ValueValidation, message)
}

fn matches_of<'a>(program: Command<'a>, words: &'a [String]) -> Result<ArgMatches<'a>, Error> {
    program.try_get_matches_from(words)
}

/// What the words behind the program's name ask for. An error is a mistake in them, with its text, or a request for help or for the
/// version, with that as its text; or want of memory.
pub fn read_words(alloc: Global, words: &[String]) -> Result<Request, Error> {
    let matches = matches_of(program(alloc)?, words)?;
    if let Some(message) = complaint_of(alloc, &matches)? {
        return Err(error_of(alloc, message.as_str())?);
    }
    let request = found_request(alloc, &matches)?;
    Ok(request)
}
