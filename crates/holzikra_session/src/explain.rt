//! The command `explain`.

use crate::screen::{Surroundings, print_answer};
use crate::status::Status;
use holzikra_colours::Answer;
use holzikra_refusals::{Entry, all_entries, code_named};
use holzikra_words::ExplainOptions;
use std::alloc::{AllocError, Global};
use std::io;
use std::rt::Runtime;

/// Where ECMA-262 can be read.
const ADDRESS: &str = "https://262.ecma-international.org/12.0/";

/// Appends a script, each line of it behind four blanks.
fn push_script(lines: &mut String, script: &str) -> Result<(), AllocError> {
    for line in script.split('\n') {
        lines.push_str("    ")?;
        lines.push_str(line)?;
        lines.push('\n')?;
    }
    Ok(())
}

/// What is said of a code.
fn explained(alloc: Global, entry: &Entry) -> Result<String, AllocError> {
    let mut lines = format!(in alloc;
        "{}: {}\n\n{}\n\nrefused:\n",
        entry.code, entry.title, entry.rule
    )?;
    push_script(&mut lines, entry.breaks)?;
    lines.push_str("read:\n")?;
    push_script(&mut lines, entry.keeps)?;
    if !entry.clauses.is_empty() {
        lines.push_str("ECMA-262, 12th edition: ")?;
        lines.push_str(entry.clauses)?;
        write!(lines, " ({ADDRESS})\n")?;
    }
    Ok(lines)
}

/// The list of all codes.
fn list(alloc: Global) -> Result<String, AllocError> {
    let mut lines = String::new(alloc);
    for entry in all_entries() {
        write!(lines, "{:<4} {}\n", entry.code, entry.title)?;
    }
    Ok(lines)
}

/// Says what the codes mean, or lists all. A word that is no code is named on standard error.
pub(crate) fn explain_all<R: Runtime + AllocGlobal>(
    rt: &R,
    options: &ExplainOptions,
    around: Surroundings,
) -> io::Result<Status> {
    let colors = around.colors(options.colors);
    if options.codes.is_empty() {
        let lines = list(rt.alloc())?;
        print_answer(rt, colors, Answer::Codes, lines.into_bytes())?;
        return Ok(Status::Fine);
    }
    let mut status = Status::Fine;
    for (place, word) in options.codes.iter().enumerate() {
        match code_named(word.as_str()) {
            None => {
                status = Status::Trouble;
                eprintln!(rt; "holzikra: no code {word}; `holzikra explain` lists all")?;
            }
            Some(entry) => {
                let lines = explained(rt.alloc(), entry)?;
                if place > 0 {
                    print!(rt; "\n")?;
                }
                print_answer(rt, colors, Answer::Codes, lines.into_bytes())?;
            }
        }
    }
    Ok(status)
}
