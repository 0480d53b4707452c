//! Texts of a script, as a terminal may show them.

ghost use Rattle.std.specs.Prelude.{◌≡◌, ◌==◌, ◌&&◌, not};
ghost use Rattle.holzikra_places.specs.Shown.{is_hidden};

use holzikra_places::is_hidden;
use std::alloc::{AllocError, Global};
use stencil_data::Text;

/// The units of the text of an atom, none where there is no such text.
pub fn text_at(texts: &[Text], atom: u32) -> &[u16] {
    match texts.get(atom as usize) {
        None => &[],
        Some(text) => text.units(),
    }
}

/// Whether a character is shown as itself: a terminal may have it, and it is no quotation mark, which would end a text in a listing.
fn is_shown(letter: char) -> bool
    ensures { result ≡ (not (is_hidden letter) && not (letter == 34)) }
{
    !is_hidden(letter) && letter != '"'
}

/// A digit in lower case.
fn hex_digit(value: u32) -> u8 {
    let digit = value % 16;
    if digit < 10 {
        b'0' + digit as u8
    } else {
        b'a' + (digit - 10) as u8
    }
}

/// Appends `\u{HEX}` of a number in four digits, or in six where four are too few.
fn append_escape(out: &mut Vec<u8>, code: u32) -> Result<(), AllocError> {
    out.extend_from_slice(b"\\u{")?;
    if code > 0xffff {
        out.push(hex_digit(code / 0x10_0000))?;
        out.push(hex_digit(code / 0x1_0000))?;
    }
    out.push(hex_digit(code / 0x1000))?;
    out.push(hex_digit(code / 0x100))?;
    out.push(hex_digit(code / 0x10))?;
    out.push(hex_digit(code))?;
    out.extend_from_slice(b"}")?;
    Ok(())
}

/// Appends characters in UTF-8, those that a terminal does not show as escapes, and `..` in place of those beyond the first `most`.
pub fn append_chars(out: &mut Vec<u8>, text: &str, most: usize) -> Result<(), AllocError> {
    let mut left = most;
    for letter in text.chars() {
        if left == 0 {
            out.extend_from_slice(b"..")?;
            return Ok(());
        }
        left -= 1;
        if is_shown(letter) {
            let mut bytes = [0u8; 4];
            out.extend_from_slice(letter.encode_utf8(&mut bytes).as_bytes())?;
        } else {
            append_escape(out, letter as u32)?;
        }
    }
    Ok(())
}

/// Appends the 16-bit units of a text as characters, a lone surrogate as the replacement character.
pub fn append_name(alloc: Global, out: &mut Vec<u8>, units: &[u16]) -> Result<(), AllocError> {
    let text = String::from_utf16_lossy(alloc, units)?;
    append_chars(out, text.as_str(), usize::MAX)
}
