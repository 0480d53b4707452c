//! What is said of a place in a text that is refused.

use crate::before::{before, begins, first_word, is_word, last_word};
use crate::code::{Code, Rule};
use crate::entries::entry_of;
use crate::strings::{TextFault, text_fault};
use bstr::ByteSlice;
use holzikra_places::push_shown;
use std::alloc::{AllocError, Global};
use std::str;

/// The most characters of a token that are shown.
const LONGEST: usize = 60;

/// The name or word at this offset, as it is written; none where something else stands there.
pub fn name_at(text: &[u8], at: usize) -> Option<&str> {
    let word = first_word(text.get(at..)?);
    if word.is_empty() {
        return None;
    }
    str::from_utf8(word).ok()
}

/// A token as it is shown.
fn shown(alloc: Global, token: &[u8]) -> Result<String, AllocError> {
    let mut shown = String::new(alloc);
    for c in token.chars().take(LONGEST) {
        push_shown(&mut shown, c)?;
    }
    Ok(shown)
}

/// The word at this offset, as it is shown.
fn word_at(alloc: Global, text: &[u8], at: usize) -> Result<String, AllocError> {
    shown(alloc, first_word(text.get(at..).unwrap_or(&[])))
}

/// What is said of a text that is refused with this code at this offset.
pub fn message(alloc: Global, code: Code, text: &[u8], at: usize) -> Result<String, AllocError> {
    match code {
        Code::Early(rule) => rule_message(alloc, rule, text, at),
        Code::Unexpected => unexpected(alloc, text, at),
        Code::TooDeep => String::from_str(
            alloc,
            "nested more than 400 deep: a limit of this program",
        ),
        Code::BadUtf8 => {
            let byte = text.get(at).copied().unwrap_or(0);
            format!(in alloc; "not UTF-8: byte `{byte:02X}`")
        }
        Code::TooLong => String::from_str(
            alloc,
            "more than 16,777,215 bytes: a limit of this program",
        ),
        Code::Outside(_) => String::from_str(alloc, entry_of(code).title),
    }
}

fn rule_message(alloc: Global, rule: Rule, text: &[u8], at: usize) -> Result<String, AllocError> {
    let name = word_at(alloc, text, at)?;
    match rule {
        Rule::LexicalTwice | Rule::LexicalAndVar => format!(in alloc;
            "identifier `{name}` has already been declared"
        ),
        Rule::LoopHead => format!(in alloc; "`{name}` is declared by the head of this loop"),
        Rule::CatchParameter => format!(in alloc;
            "`{name}` is the catch parameter and cannot be declared again in its block"
        ),
        Rule::Parameter => format!(in alloc;
            "parameter `{name}` cannot be declared again by `let` or `const`"
        ),
        Rule::ParameterTwice => format!(in alloc; "parameter `{name}` stands twice"),
        Rule::ConstWithoutValue => format!(in alloc; "constant `{name}` has no value"),
        Rule::StrictName => format!(in alloc; "`{name}` cannot be a name in strict code"),
        Rule::Target => target_message(alloc, &name),
        Rule::Delete => delete_message(alloc, text, at),
        Rule::Jump => jump_message(alloc, &name, text, at),
        Rule::Proto => String::from_str(alloc, "`__proto__` is set twice in one object"),
        Rule::TooMany => String::from_str(
            alloc,
            "more than 65,535 parameters or arguments: a limit of this program",
        ),
        Rule::UseStrict => String::from_str(
            alloc,
            "`\"use strict\"` in a function with default or rest parameters",
        ),
    }
}

fn target_message(alloc: Global, name: &String) -> Result<String, AllocError> {
    match name.as_str() {
        "eval" | "arguments" => format!(in alloc; "`{name}` cannot be assigned to in strict code"),
        _ => String::from_str(alloc, "this cannot be assigned to"),
    }
}

/// The text behind the word at this offset, without blanks in front.
fn behind_word(text: &[u8], at: usize) -> &[u8] {
    let token = text.get(at..).unwrap_or(&[]);
    let word = first_word(token);
    token.get(word.len()..).unwrap_or(&[])
}

fn delete_message(alloc: Global, text: &[u8], at: usize) -> Result<String, AllocError> {
    let rest = behind_word(text, at);
    let start = rest
        .iter()
        .position(|byte| !matches!(*byte, b'(' | b' ' | b'\t' | b'\n' | b'\r'))
        .unwrap_or(0);
    let name = shown(alloc, first_word(rest.get(start..).unwrap_or(&[])))?;
    if name.is_empty() {
        return String::from_str(alloc, "`delete` of a name in strict code");
    }
    format!(in alloc; "`delete` of the name `{name}` in strict code")
}

fn jump_message(
    alloc: Global,
    word: &String,
    text: &[u8],
    at: usize,
) -> Result<String, AllocError> {
    let rest = behind_word(text, at);
    let start = rest
        .iter()
        .position(|byte| !matches!(*byte, b' ' | b'\t'))
        .unwrap_or(0);
    let label = shown(alloc, first_word(rest.get(start..).unwrap_or(&[])))?;
    match (word.as_str(), label.is_empty()) {
        ("break", true) => String::from_str(alloc, "`break` outside a loop or `switch`"),
        ("continue", true) => String::from_str(alloc, "`continue` outside a loop"),
        ("break", false) => format!(in alloc; "no label `{label}` around this `break`"),
        ("continue", false) => format!(in alloc;
            "no loop with the label `{label}` around this `continue`"
        ),
        _ => label_message(alloc, word, text, at),
    }
}

fn label_message(
    alloc: Global,
    label: &String,
    text: &[u8],
    at: usize,
) -> Result<String, AllocError> {
    let previous = last_word(before(text, at));
    if is_word(previous, "break") {
        format!(in alloc; "no label `{label}` around this `break`")
    } else if is_word(previous, "continue") {
        format!(in alloc; "no loop with the label `{label}` around this `continue`")
    } else {
        format!(in alloc; "label `{label}` stands inside a label `{label}`")
    }
}

/// The marks of more than one character, longer ones first.
static MARKS: [&str; 28] = [
    ">>>=", "...", "===", "!==", "**=", "<<=", ">>=", ">>>", "&&=", "||=", "??=", "=>", "==", "!=",
    "<=", ">=", "&&", "||", "??", "?.", "++", "--", "+=", "-=", "*=", "**", "<<", ">>",
];

/// The mark that a token begins with.
fn mark_of(token: &[u8]) -> &[u8] {
    for mark in &MARKS {
        if begins(token, mark) {
            return token.get(..mark.len()).unwrap_or(token);
        }
    }
    token.get(..1).unwrap_or(token)
}

fn is_mark(byte: u8) -> bool {
    b"{}()[];,<>+-*/%&|^!~?:=.".as_slice().contains(&byte)
}

fn unexpected(alloc: Global, text: &[u8], at: usize) -> Result<String, AllocError> {
    let token = text.get(at..).unwrap_or(&[]);
    let Some(first) = token.first() else {
        return String::from_str(alloc, "unexpected end of file");
    };
    if begins(token, "/*") {
        return String::from_str(alloc, "comment without end");
    }
    if matches!(*first, b'"' | b'\'' | b'`') {
        return unexpected_string(alloc, token, *first);
    }
    if *first == b'\\' {
        return String::from_str(alloc, "wrong escape");
    }
    let word = first_word(token);
    if !word.is_empty() {
        let word = shown(alloc, word)?;
        return format!(in alloc; "unexpected `{word}`");
    }
    let mark = shown(alloc, mark_of(token))?;
    if is_mark(*first) {
        format!(in alloc; "unexpected `{mark}`")
    } else {
        format!(in alloc; "character `{mark}` begins no token")
    }
}

fn unexpected_string(alloc: Global, token: &[u8], quote: u8) -> Result<String, AllocError> {
    let what = if quote == b'`' { "template" } else { "string" };
    match text_fault(token) {
        Some(TextFault::Open) => format!(in alloc; "{what} without end"),
        Some(_) => String::from_str(alloc, "wrong escape"),
        None => format!(in alloc; "unexpected {what}"),
    }
}
