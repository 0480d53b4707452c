//! The words of a command.

ghost use Rattle.std.specs.Prelude.{◌≡◌, map, option_map, IfOk, IfErr, Some, string_bytes};
ghost use Rattle.session_words.specs.Asked.{asked, Trial, Churn};
ghost use Rattle.session_words.specs.Chosen.{given, generated};
ghost use Rattle.session_words.specs.Chosen as chosen;
ghost use Rattle.session_words.specs.Words as form;
ghost use Rattle.session_words.specs.Words.{asked_of};
ghost use Rattle.session_words.specs.Faults.{IsFaultOf};

use crate::choices::{Choices, is_option, workers_of};
use crate::numbers::number_in;
use crate::options::{Command, FileJob, Options, Order, Want, WordsFault};
use std::alloc::{AllocError, Global};

/// The most files of a command.
const MOST_FILES: usize = 64;

/// How many workers there are where none are given.
const WORKERS: u32 = 4;

/// What options gave, and the words after them.
#[derive(Drop)]
pub struct Taken<'a> {
    pub choices: Choices,
    pub names: &'a [String],
}

/// Options from the first word on, each at most once.
fn take_options(alloc: Global, words: &[String]) -> Result<Option<Taken<'_>>, AllocError>
    ensures { IfOk result (λ t. option_map chosen.taken t ≡ form.take_options form.nothing_given (map string_bytes words.now)) }
{
    let mut choices = Choices::none();
    let mut rest = words;
    while let Some((word, behind)) = rest.split_first() {
        if !is_option(word.as_str()) {
            break;
        }
        let Some((value, further)) = behind.split_first() else {
            return Ok(None);
        };
        match choices.with_option(alloc, word.as_str(), value.as_str())? {
            None => return Ok(None),
            Some(more) => {
                choices = more;
                rest = further;
            }
        }
    }
    Ok(Some(Taken {
        choices,
        names: rest,
    }))
}

/// Whether the word can name a file: it is not empty and does not begin with `-`.
fn is_file_name(word: &[u8]) -> bool
    ensures { result ≡ form.is_file_name word.now }
{
    match word {
        [] => false,
        [first, ..] => *first != b'-',
    }
}

fn all_file_names(names: &[String]) -> bool
    ensures { result ≡ form.all_file_names (map string_bytes names.now) }
{
    let mut names = names;
    while let Some((name, rest)) = names.split_first() {
        if !is_file_name(name.as_bytes()) {
            return false;
        }
        names = rest;
    }
    true
}

/// Whether these are from 1 to n file names.
fn are_names(most: usize, names: &[String]) -> bool
    ensures { result ≡ form.are_names most (map string_bytes names.now) }
{
    1 <= names.len() && names.len() <= most && all_file_names(names)
}

fn copied(alloc: Global, names: &[String]) -> Result<Vec<String>, AllocError>
    ensures { IfOk result (λ copies. map string_bytes copies.items ≡ map string_bytes names.now) }
{
    let mut copies = Vec::new(alloc);
    for name in names {
        copies.push(name.clone()?)?;
    }
    Ok(copies)
}

/// What is asked for these files, with a default for what was not given.
fn job(command: Command, choices: Choices, files: Vec<String>) -> Options
    ensures { asked result ≡ form.job_of command (given choices) (map string_bytes files.items) }
{
    Options::Files(FileJob {
        command,
        want: choices.want.unwrap_or(Want::All),
        workers: choices.workers.unwrap_or(WORKERS),
        order: choices.order.unwrap_or(Order::First),
        files,
    })
}

/// A command over these files, if they are at most n.
fn with_names(
    alloc: Global,
    command: Command,
    most: usize,
    choices: Choices,
    names: &[String],
) -> Result<Option<Options>, AllocError>
    ensures { IfOk result (λ o. option_map asked o ≡ form.with_names command most
        (record { given = given choices; names = map string_bytes names.now })) }
{
    if !are_names(most, names) {
        return Ok(None);
    }
    let files = copied(alloc, names)?;
    Ok(Some(job(command, choices, files)))
}

fn files_form(
    alloc: Global,
    command: Command,
    most: usize,
    words: &[String],
) -> Result<Option<Options>, AllocError>
    ensures { IfOk result (λ o. option_map asked o ≡ form.files_form command most (map string_bytes words.now)) }
{
    match take_options(alloc, words)? {
        None => Ok(None),
        Some(taken) => with_names(alloc, command, most, taken.choices, taken.names),
    }
}

fn image_form(
    alloc: Global,
    command: Command,
    words: &[String],
) -> Result<Option<Options>, AllocError>
    ensures { IfOk result (λ o. option_map asked o ≡ form.image_form command (map string_bytes words.now)) }
{
    with_names(alloc, command, 1, Choices::none(), words)
}

/// A number, a size, and how many workers.
#[derive(Clone, Copy)]
pub struct Numbers {
    pub number: u32,
    pub size: u32,
    pub workers: u32,
}

fn generated_by(number: &str, size: &str, workers: Option<u32>) -> Option<Numbers>
    ensures { option_map generated result ≡ form.generated_by (form.number_from number.now) (form.size_from size.now) workers }
{
    let number = number_in(0, 4_294_967_295, number.as_bytes())?;
    let size = number_in(1, 100_000, size.as_bytes())?;
    let workers = workers?;
    Some(Numbers {
        number,
        size,
        workers,
    })
}

/// The word `--workers` in front of a number of workers.
const WORKERS_WORD: &str = "--workers";

/// How many workers the words after a size say.
fn workers_behind(words: &[String]) -> Option<u32>
    ensures { result ≡ form.workers_behind (map string_bytes words.now) }
{
    match words {
        [] => Some(WORKERS),
        [_] => None,
        [option, value] => {
            if option.as_str() == WORKERS_WORD {
                workers_of(value.as_str())
            } else {
                None
            }
        }
        [_, _, _, ..] => None,
    }
}

fn generated_of(words: &[String]) -> Option<Numbers>
    ensures { option_map generated result ≡ form.generated_of (map string_bytes words.now) }
{
    let (number, behind) = words.split_first()?;
    let (size, rest) = behind.split_first()?;
    generated_by(number.as_str(), size.as_str(), workers_behind(rest))
}

fn trial_form(words: &[String]) -> Option<Options>
    ensures { option_map asked result ≡ form.text_form Trial (map string_bytes words.now) }
{
    let numbers = generated_of(words)?;
    Some(Options::Trial {
        number: numbers.number,
        size: numbers.size,
        workers: numbers.workers,
    })
}

fn churn_form(words: &[String]) -> Option<Options>
    ensures { option_map asked result ≡ form.text_form Churn (map string_bytes words.now) }
{
    let numbers = generated_of(words)?;
    Some(Options::Churn {
        number: numbers.number,
        size: numbers.size,
        workers: numbers.workers,
    })
}

/// What a command of this word asks for, by the words after it.
fn form_of(alloc: Global, word: &str, rest: &[String]) -> Result<Option<Options>, AllocError>
    ensures { IfOk result (λ o. option_map asked o ≡ form.form_of word.now (map string_bytes rest.now)) }
{
    if word == "code" {
        files_form(alloc, Command::Code, MOST_FILES, rest)
    } else if word == "scopes" {
        files_form(alloc, Command::Scopes, MOST_FILES, rest)
    } else if word == "check" {
        files_form(alloc, Command::Check, MOST_FILES, rest)
    } else if word == "save" {
        files_form(alloc, Command::Save, 1, rest)
    } else if word == "load" {
        image_form(alloc, Command::Load, rest)
    } else if word == "verify" {
        image_form(alloc, Command::Verify, rest)
    } else if word == "trial" {
        Ok(trial_form(rest))
    } else if word == "churn" {
        Ok(churn_form(rest))
    } else {
        Ok(None)
    }
}

/// What the words of a command ask for: those after the program's name. `BadWords` comes exactly where they have none of the
/// forms.
pub fn read_words(alloc: Global, words: &[String]) -> Result<Options, WordsFault>
    ensures asked { IfOk result (λ options. asked_of (map string_bytes words.now) ≡ Some (asked options)) }
    ensures fault { IfErr result (IsFaultOf (map string_bytes words.now)) }
{
    let Some((word, rest)) = words.split_first() else {
        return Err(WordsFault::BadWords);
    };
    match form_of(alloc, word.as_str(), rest) {
        Ok(Some(options)) => Ok(options),
        Ok(None) => Err(WordsFault::BadWords),
        Err(_) => Err(WordsFault::NoMemory),
    }
}
