//! Characters of a source text, as they are shown on a terminal.

ghost use Rattle.std.specs.Prelude.{◌≡◌, ◌++◌, OnOk, string_bytes};
ghost use Rattle.holzikra_places.specs.Shown.{ends_line, escape, is_control, is_hidden, shown, shown_text, turns_direction};

use std::alloc::AllocError;
use unicode_width::UnicodeWidthChar;

/// Whether the number of a character is that of a control character.
#[tactic(auto, unfolding(crate::specs::Shown::is_control))]
fn is_control(code: u32) -> bool
    ensures { result ≡ is_control code }
{
    code <= 0x1f || (0x7f <= code && code <= 0x9f)
}

/// Whether it is that of a character that turns the direction of text.
#[tactic(auto, unfolding(crate::specs::Shown::turns_direction))]
fn turns_direction(code: u32) -> bool
    ensures { result ≡ turns_direction code }
{
    code == 0x061c
        || code == 0x200e
        || code == 0x200f
        || (0x202a <= code && code <= 0x202e)
        || (0x2066 <= code && code <= 0x2069)
}

/// Whether it is that of a character that ends a line, and is no control character.
#[tactic(auto, unfolding(crate::specs::Shown::ends_line))]
fn ends_line(code: u32) -> bool
    ensures { result ≡ ends_line code }
{
    code == 0x2028 || code == 0x2029
}

/// Whether the character could change what a terminal shows of others: a control character, one that turns the direction of text, or
/// one that ends a line. What is said of characters that are no others is said here alone.
#[tactic(auto, unfolding(crate::specs::Shown::is_hidden))]
pub fn is_hidden(c: char) -> bool
    ensures { result ≡ is_hidden c }
{
    let code = c as u32;
    is_control(code) || turns_direction(code) || ends_line(code)
}

/// Appends the number of a character as an escape.
fn push_escape(into: &mut String, code: u32) -> Result<(), AllocError>
    ensures { OnOk result (string_bytes into.new ≡ string_bytes into.old ++ escape code) }
{
    write!(into, "\\u{{{code:x}}}")?;
    Ok(())
}

/// Appends a character as it is shown: a tab as one blank, and one that is not to reach a terminal as `\u{202e}`.
#[tactic(auto, unfolding(crate::specs::Shown::shown))]
pub fn push_shown(into: &mut String, c: char) -> Result<(), AllocError>
    ensures { OnOk result (string_bytes into.new ≡ string_bytes into.old ++ shown c) }
{
    if c == '\t' {
        into.push(' ')?;
    } else if is_hidden(c) {
        push_escape(into, c as u32)?;
    } else {
        into.push(c)?;
    }
    Ok(())
}

/// Appends a text as it is shown.
pub fn push_shown_text(into: &mut String, text: &str) -> Result<(), AllocError>
    ensures { OnOk result (string_bytes into.new ≡ string_bytes into.old ++ shown_text text.now) }
{
    for c in text.chars() {
        push_shown(into, c)?;
    }
    Ok(())
}

/// How many columns of a terminal `push_shown` takes for a character: at most 8.
pub(crate) fn shown_width(c: char) -> usize {
    if c == '\t' {
        1
    } else if !is_hidden(c) {
        c.width().unwrap_or(0)
    } else if (c as u32) < 0x10 {
        5
    } else if (c as u32) < 0x100 {
        6
    } else if (c as u32) < 0x1000 {
        7
    } else {
        8
    }
}
