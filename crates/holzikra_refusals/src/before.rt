//! What stands in front of a place and at it, as far as bytes tell.

use bstr::ByteSlice;

/// Whether the byte may belong to a name, a word or a number. Bytes of code points above U+007F are taken as such.
pub(crate) fn is_word_byte(byte: u8) -> bool {
    byte.is_ascii_alphanumeric() || matches!(byte, b'_' | b'$' | b'\\' | 0x80..=0xff)
}

/// Whether the bytes are those of this word.
pub(crate) fn is_word(bytes: &[u8], word: &str) -> bool {
    bytes == word.as_bytes()
}

/// Whether the bytes begin with this mark.
pub(crate) fn begins(bytes: &[u8], mark: &str) -> bool {
    bytes.starts_with(mark.as_bytes())
}

/// The text in front of a place, without the blanks and the comments between `/*` and `*/` at its end.
pub(crate) fn before(text: &[u8], at: usize) -> &[u8] {
    let mut front = text.get(..at).unwrap_or(text);
    for _ in 0..text.len() {
        front = front.trim_ascii_end();
        let Some(inner) = front.strip_suffix(b"*/".as_slice()) else {
            return front;
        };
        let Some(start) = inner.rfind(b"/*".as_slice()) else {
            return front;
        };
        front = inner.get(..start).unwrap_or(&[]);
    }
    front
}

/// The bytes of a word that the text ends with; none where it ends with something else.
pub(crate) fn last_word(text: &[u8]) -> &[u8] {
    let start = match text.iter().rposition(|byte| !is_word_byte(*byte)) {
        None => 0,
        Some(place) => place.saturating_add(1),
    };
    text.get(start..).unwrap_or(&[])
}

/// The bytes of a word that the text begins with; none where it begins with something else.
pub(crate) fn first_word(text: &[u8]) -> &[u8] {
    match text.iter().position(|byte| !is_word_byte(*byte)) {
        None => text,
        Some(end) => text.get(..end).unwrap_or(&[]),
    }
}

/// Whether no token stands in front of the place in its line.
pub(crate) fn begins_line(text: &[u8], at: usize) -> bool {
    let front = text.get(..at).unwrap_or(text);
    match front
        .iter()
        .rposition(|byte| !matches!(*byte, b' ' | b'\t'))
    {
        None => true,
        Some(place) => {
            let byte = front.get(place).copied().unwrap_or(b' ');
            byte == b'\n' || byte == b'\r'
        }
    }
}
