//! Which form outside the profile a refused token looks like.

use crate::before::{before, begins, begins_line, first_word, is_word, last_word};
use crate::code::{Code, Form, Rule};
use crate::numbers::number_form;
use crate::strings::{TextFault, text_fault};

/// The code that is shown where this one is exact: one of a form outside the profile, where the refused token looks like one.
pub fn shown_code(exact: Code, text: &[u8], at: usize) -> Code {
    match exact {
        Code::Unexpected => match form_at(text, at) {
            Some(form) => Code::Outside(form),
            None => exact,
        },
        Code::Early(Rule::Target) if matches!(text.get(at), Some(b'[' | b'{')) => Code::Outside(
            Form::Destructuring,
        ),
        _ => exact,
    }
}

/// Words that begin a form, wherever they stand.
static WORDS: [(&str, Form); 16] = [
    ("import", Form::Module),
    ("export", Form::Module),
    ("class", Form::Class),
    ("super", Form::Class),
    ("of", Form::ForOf),
    ("finally", Form::Finally),
    ("with", Form::Sloppy),
    ("yield", Form::Sloppy),
    ("static", Form::Sloppy),
    ("let", Form::Sloppy),
    ("implements", Form::Sloppy),
    ("interface", Form::Sloppy),
    ("package", Form::Sloppy),
    ("private", Form::Sloppy),
    ("protected", Form::Sloppy),
    ("public", Form::Sloppy),
];

/// Marks that begin a form, wherever they stand.
static MARKS: [(&str, Form); 5] = [
    ("...", Form::Spread),
    ("?.", Form::OptionalChaining),
    ("&&=", Form::LogicalAssignment),
    ("||=", Form::LogicalAssignment),
    ("??=", Form::LogicalAssignment),
];

/// The form outside the profile that a text seems to have where none of the profile goes on with the token at this offset, if it seems
/// to have one. It is a guess from the token and what stands in front of it.
fn form_at(text: &[u8], at: usize) -> Option<Form> {
    let token = text.get(at..)?;
    let front = before(text, at);
    let word = first_word(token);
    let first = *token.first()?;
    if first.is_ascii_digit() {
        number_form(token)
    } else if first == b'\\' {
        None
    } else if !word.is_empty() {
        word_form(word, front, begins_line(text, at))
    } else if first == b'\'' || first == b'"' {
        string_form(token)
    } else {
        mark_form(token, front)
    }
}

/// The form that a word begins, behind this front of the text.
fn word_form(word: &[u8], front: &[u8], begins_line: bool) -> Option<Form> {
    for (name, form) in &WORDS {
        if is_word(word, name) {
            return Some(*form);
        }
    }
    let previous = last_word(front);
    let last = front.last().copied().unwrap_or(b';');
    if is_word(word, "return") && (begins_line || b";{})".as_slice().contains(&last)) {
        Some(Form::TopReturn)
    } else if is_word(previous, "async") || is_word(previous, "await") {
        Some(Form::Async)
    } else if is_word(word, "function")
        && (is_word(previous, "else") || last == b')' || last == b':')
    {
        Some(Form::Sloppy)
    } else {
        None
    }
}

/// The form of a string.
fn string_form(token: &[u8]) -> Option<Form> {
    match text_fault(token) {
        Some(TextFault::OctalEscape) => Some(Form::Sloppy),
        _ => None,
    }
}

/// The form that a mark begins, behind this front of the text.
fn mark_form(token: &[u8], front: &[u8]) -> Option<Form> {
    for (mark, form) in &MARKS {
        if begins(token, mark) {
            return Some(*form);
        }
    }
    let previous = last_word(front);
    if begins(token, "/*") || begins(token, "**") {
        None
    } else if begins(token, "/") {
        Some(Form::RegularExpression)
    } else if begins(token, ".") {
        point_form(token, previous)
    } else if begins(token, "*") {
        star_form(front)
    } else if begins(token, "(") && is_word(previous, "async") {
        Some(Form::Async)
    } else if begins(token, "`") {
        template_form(token, front)
    } else if begins(token, "=>") {
        arrow_form(front)
    } else {
        pattern_form(token, front)
    }
}

/// The form that a point begins.
fn point_form(token: &[u8], previous: &[u8]) -> Option<Form> {
    let next = token.get(1).copied().unwrap_or(b' ');
    if next.is_ascii_digit() {
        Some(Form::Fraction)
    } else if is_word(previous, "new") {
        Some(Form::NewTarget)
    } else {
        None
    }
}

/// The form that `*` begins.
fn star_form(front: &[u8]) -> Option<Form> {
    let previous = last_word(front);
    let last = front.last().copied().unwrap_or(b' ');
    if is_word(previous, "function") || is_word(previous, "yield") || last == b'{' || last == b',' {
        Some(Form::Generator)
    } else {
        None
    }
}

/// A template behind a value is tagged.
fn template_form(token: &[u8], front: &[u8]) -> Option<Form> {
    let last = front.last().copied().unwrap_or(b' ');
    let is_whole = text_fault(token) != Some(TextFault::Open);
    if is_whole && (!last_word(front).is_empty() || last == b')' || last == b']') {
        Some(Form::TaggedTemplate)
    } else {
        None
    }
}

/// `=>` behind parentheses that no arrow of the profile has: those behind `async`, or with a pattern in them.
fn arrow_form(front: &[u8]) -> Option<Form> {
    let open = opening(front)?;
    let inside = front.get(open..).unwrap_or(&[]);
    if is_word(last_word(before(front, open)), "async") {
        Some(Form::Async)
    } else if inside.iter().any(|byte| matches!(*byte, b'{' | b'[')) {
        Some(Form::Destructuring)
    } else {
        None
    }
}

/// Where the parenthesis stands that the last one of a text closes, if it ends with one. What stands in strings is taken for code.
fn opening(front: &[u8]) -> Option<usize> {
    let mut depth = 0usize;
    for (at, byte) in front.iter().enumerate().rev() {
        match *byte {
            b')' => depth = depth.saturating_add(1),
            b'(' if depth == 1 => return Some(at),
            b'(' => depth = depth.saturating_sub(1),
            _ if depth == 0 => return None,
            _ => (),
        }
    }
    None
}

/// A bracket where a name is declared, or `=` behind a pattern.
fn pattern_form(token: &[u8], front: &[u8]) -> Option<Form> {
    let previous = last_word(front);
    let last = front.last().copied().unwrap_or(b' ');
    let declares = is_word(previous, "var")
        || is_word(previous, "let")
        || is_word(previous, "const");
    if begins(token, "{") || begins(token, "[") {
        if declares || last == b'(' || last == b',' {
            return Some(Form::Destructuring);
        }
        return None;
    }
    if !begins(token, "=") || begins(token, "==") {
        return None;
    }
    if is_word(previous, "let") {
        Some(Form::Sloppy)
    } else if !previous.is_empty() || last == b']' || last == b'}' {
        Some(Form::Destructuring)
    } else {
        None
    }
}
