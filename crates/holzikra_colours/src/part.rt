//! Parts of lines.

use memchr::memmem;

/// How a part of a line is shown.
#[derive(Debug, Clone, Copy, PartialEq, Eq)]
pub(crate) enum Style {
    /// What is wrong, and what is gone: red.
    Wrong,
    /// What is right, and what is new: green.
    Right,
    /// What may be right elsewhere: yellow.
    Unsure,
    /// What is said of another place: cyan.
    Aside,
    /// What stands above others: bold.
    Head,
    /// What is put beside: faint.
    Faint,
}

/// A part of a text, from a place of its bytes up to another one, and how it is shown.
#[derive(Debug, Clone, Copy, PartialEq, Eq)]
pub(crate) struct Part {
    pub(crate) from: usize,
    pub(crate) to: usize,
    pub(crate) style: Style,
}

impl Part {
    fn new(from: usize, to: usize, style: Style) -> Part {
        Part { from, to, style }
    }

    /// The same part of a text that begins so many bytes in front of the line.
    pub(crate) fn behind(self, bytes: usize) -> Part {
        Part {
            from: self.from.saturating_add(bytes),
            to: self.to.saturating_add(bytes),
            style: self.style,
        }
    }
}

/// This word in a line, without so many bytes in front of it and behind it.
fn word(line: &[u8], around: &[u8], front: usize, behind: usize, style: Style) -> Option<Part> {
    let from = memmem::find(line, around)?;
    let to = from.saturating_add(around.len()).saturating_sub(behind);
    Some(Part::new(from.saturating_add(front), to, style))
}

/// Whether these bytes are all among others.
fn has_only(bytes: &[u8], among: &[u8]) -> bool {
    for byte in bytes {
        if !among.contains(byte) {
            return false;
        }
    }
    true
}

/// The mark of a line that has one under a place of the source.
fn mark(line: &[u8]) -> Option<Part> {
    let last = line.len().saturating_sub(1);
    if line.last() == Some(&b'^') && has_only(&line[..last], b" |") {
        return Some(Part::new(last, line.len(), Style::Wrong));
    }
    None
}

/// Whether a line is one of the source: behind its number and a bar.
fn is_source(line: &[u8]) -> bool {
    match memmem::find(line, b" | ") {
        None => false,
        Some(bar) => match line.get(..bar) {
            None => false,
            Some(number) => has_only(number, b" 0123456789"),
        },
    }
}

/// The part of a line that says why a text is refused, or shows where.
pub(crate) fn refusal_part(line: &[u8]) -> Option<Part> {
    if let Some(part) = mark(line) {
        return Some(part);
    }
    if is_source(line) {
        return None;
    }
    if let Some(part) = word(line, b": error: ", 2, 1, Style::Wrong) {
        return Some(part);
    }
    if let Some(part) = word(line, b": unsupported: ", 2, 1, Style::Unsure) {
        return Some(part);
    }
    word(line, b": note: ", 2, 1, Style::Aside)
}

/// The whole line.
fn all_of(line: &[u8], style: Style) -> Option<Part> {
    Some(Part::new(0, line.len(), style))
}

/// The line from this place on.
fn rest_of(line: &[u8], from: Option<usize>) -> Option<Part> {
    let from = from?;
    Some(Part::new(from, line.len(), Style::Faint))
}

/// The part of a line of a listing with notes.
pub(crate) fn listing_part(line: &[u8]) -> Option<Part> {
    if line.starts_with(b"file ") {
        return all_of(line, Style::Head);
    }
    if line.starts_with(b"#") {
        return all_of(line, Style::Faint);
    }
    rest_of(line, memmem::rfind(line, b" ; "))
}

/// The part of a line of a tree of scopes.
pub(crate) fn tree_part(line: &[u8]) -> Option<Part> {
    if line.starts_with(b"file ") {
        return all_of(line, Style::Head);
    }
    if let Some(from) = memmem::find(line, b" (") {
        return rest_of(line, Some(from));
    }
    let from = memmem::rfind(line, b"  ")?;
    let place = line.get(from.saturating_add(2))?;
    if place.is_ascii_digit() {
        return rest_of(line, Some(from));
    }
    None
}

/// The part of a line of a difference.
pub(crate) fn difference_part(line: &[u8]) -> Option<Part> {
    if line.starts_with(b"---") || line.starts_with(b"+++") {
        return all_of(line, Style::Head);
    }
    match line.first() {
        Some(b'@') => all_of(line, Style::Aside),
        Some(b'-') => all_of(line, Style::Wrong),
        Some(b'+') => all_of(line, Style::Right),
        _ => None,
    }
}

/// The part of a line that says what an image is.
pub(crate) fn image_part(line: &[u8]) -> Option<Part> {
    if let Some(part) = word(line, b": sound, ", 2, 2, Style::Right) {
        return Some(part);
    }
    if let Some(part) = word(line, b": unsound", 2, 0, Style::Wrong) {
        return Some(part);
    }
    word(line, b": no image", 2, 0, Style::Wrong)
}

/// The part of a line that explains a code: the code in front.
pub(crate) fn code_part(line: &[u8]) -> Option<Part> {
    let letter = line.first()?;
    let digit = line.get(1)?;
    if !letter.is_ascii_uppercase() || !digit.is_ascii_digit() {
        return None;
    }
    for (place, byte) in line.iter().enumerate() {
        if *byte == b':' || *byte == b' ' {
            return Some(Part::new(0, place, Style::Head));
        }
    }
    None
}

/// The heads of the columns, which are the first line.
pub(crate) fn table_part(line: &[u8], start: usize) -> Option<Part> {
    if start == 0 {
        return all_of(line, Style::Head);
    }
    None
}
