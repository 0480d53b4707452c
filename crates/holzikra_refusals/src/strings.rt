//! Strings and templates that are refused.

/// What is wrong with a string or template, if anything is.
#[derive(Clone, Copy, Debug, PartialEq, Eq)]
pub(crate) enum TextFault {
    /// It has no end.
    Open,
    /// It has an escape in old octal form.
    OctalEscape,
    /// It has an escape that is none.
    WrongEscape,
}

/// Where the reading of a string stands.
#[derive(Clone, Copy)]
enum State {
    Plain,
    /// Behind `\`.
    Escape,
    /// Behind `\0`.
    Zero,
    /// So many hexadecimal digits are to come.
    Hexadecimal(u8),
    /// Behind `\u`.
    Unicode,
    /// Behind `\u{`.
    Braced,
}

/// What one byte does to the reading: the state behind it, or how the reading ends.
fn step(state: State, byte: u8, quote: u8) -> Result<State, Option<TextFault>> {
    match state {
        State::Escape => escaped(byte),
        State::Zero if byte.is_ascii_digit() => Err(Some(TextFault::OctalEscape)),
        State::Unicode if byte == b'{' => Ok(State::Braced),
        State::Unicode if byte.is_ascii_hexdigit() => Ok(State::Hexadecimal(3)),
        State::Hexadecimal(left) if byte.is_ascii_hexdigit() => {
            if left <= 1 {
                Ok(State::Plain)
            } else {
                Ok(State::Hexadecimal(left - 1))
            }
        }
        State::Braced if byte == b'}' => Ok(State::Plain),
        State::Braced if byte.is_ascii_hexdigit() => Ok(State::Braced),
        State::Unicode | State::Hexadecimal(_) | State::Braced => Err(Some(TextFault::WrongEscape)),
        State::Plain | State::Zero => plain(byte, quote),
    }
}

fn plain(byte: u8, quote: u8) -> Result<State, Option<TextFault>> {
    match byte {
        b'\\' => Ok(State::Escape),
        b'\n' | b'\r' if quote != b'`' => Err(Some(TextFault::Open)),
        _ if byte == quote => Err(None),
        _ => Ok(State::Plain),
    }
}

fn escaped(byte: u8) -> Result<State, Option<TextFault>> {
    match byte {
        b'0' => Ok(State::Zero),
        b'1'..=b'9' => Err(Some(TextFault::OctalEscape)),
        b'x' => Ok(State::Hexadecimal(2)),
        b'u' => Ok(State::Unicode),
        _ => Ok(State::Plain),
    }
}

/// What is wrong with the string or template that the text begins with.
pub(crate) fn text_fault(text: &[u8]) -> Option<TextFault> {
    let (quote, rest) = text.split_first()?;
    let mut state = State::Plain;
    for byte in rest {
        match step(state, *byte, *quote) {
            Ok(next) => state = next,
            Err(fault) => return fault,
        }
    }
    Some(TextFault::Open)
}
