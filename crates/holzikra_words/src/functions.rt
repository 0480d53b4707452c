//! The words that name functions.

use crate::parts::Words;
use clap::ArgMatches;
use std::alloc::{AllocError, Global};

/// How functions of a script are named.
#[derive(Drop)]
pub enum FunctionName {
    /// That of this number; 0 is the script itself.
    Number(u32),
    /// All of this name.
    Text(String),
    /// The innermost one around this place: a line, and a column of it in 16-bit units of UTF-16, each from 1.
    Place(u32, u32),
}

/// Functions of a script as they are asked for.
#[derive(Drop)]
pub struct FunctionWord {
    pub name: FunctionName,
    /// With the functions inside them.
    pub inner: bool,
}

/// What a place is called in help and errors.
const PLACE: &str = "LINE[:COLUMN]";

/// The options for functions.
pub(crate) fn add_functions(words: &mut Words<'_>) -> Result<(), AllocError> {
    let named = "a number or a name; may be given again";
    words.repeated("function", "FUNCTION", named)?;
    let at = "the innermost function there; may be given again";
    words.repeated("at", PLACE, at)?;
    let only = "without the functions inside those that are named";
    words.switch("only", only)
}

/// The number that a text is: digits alone, and not too great.
fn number_of(text: &str) -> Option<u32> {
    if text.is_empty() {
        return None;
    }
    let mut number = 0u32;
    for byte in text.bytes() {
        if !byte.is_ascii_digit() {
            return None;
        }
        let digit = u32::from(byte.saturating_sub(b'0'));
        number = number.checked_mul(10)?.checked_add(digit)?;
    }
    Some(number)
}

/// The place that a text is; without a column the beginning of the line.
fn place_of(text: &str) -> Option<(u32, u32)> {
    match text.split_once(':') {
        None => Some((number_of(text)?, 1)),
        Some((line, column)) => Some((number_of(line)?, number_of(column)?)),
    }
}

/// The first text behind `--at` that is no place.
fn wrong_place<'a>(found: &ArgMatches<'a>) -> Option<&'a str> {
    for text in found.get_strs("at")? {
        if place_of(text).is_none() {
            return Some(text);
        }
    }
    None
}

/// Whether a function is named, or a place.
fn names_function(found: &ArgMatches<'_>) -> bool {
    found.get_strs("function").is_some() || found.get_strs("at").is_some()
}

/// What is wrong with the words for functions, if something is: a place that is none, or `--only` of no function.
pub(crate) fn complaint(
    alloc: Global,
    found: &ArgMatches<'_>,
) -> Result<Option<String>, AllocError> {
    if let Some(text) = wrong_place(found) {
        let message = format!(in alloc; "invalid value '{text}' for '--at <{PLACE}>'")?;
        return Ok(Some(message));
    }
    if found.get_flag("only") && !names_function(found) {
        let message = format!(in alloc;
            "'--only' needs '--function <FUNCTION>' or '--at <{PLACE}>'"
        )?;
        return Ok(Some(message));
    }
    Ok(None)
}

/// What a word behind `--function` means.
fn name_of(alloc: Global, text: &str) -> Result<FunctionName, AllocError> {
    if let Some(number) = number_of(text) {
        return Ok(FunctionName::Number(number));
    }
    Ok(FunctionName::Text(String::from_str(alloc, text)?))
}

/// The functions that the words ask for.
pub(crate) fn function_words(
    alloc: Global,
    found: &ArgMatches<'_>,
) -> Result<Vec<FunctionWord>, AllocError> {
    let inner = !found.get_flag("only");
    let mut words = Vec::new(alloc);
    if let Some(values) = found.get_strs("function") {
        for value in values {
            let name = name_of(alloc, value)?;
            words.push(FunctionWord { name, inner })?;
        }
    }
    if let Some(values) = found.get_strs("at") {
        for value in values {
            if let Some((line, column)) = place_of(value) {
                let name = FunctionName::Place(line, column);
                words.push(FunctionWord { name, inner })?;
            }
        }
    }
    Ok(words)
}
