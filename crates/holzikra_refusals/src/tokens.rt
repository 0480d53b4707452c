//! The tokens of a text as far as bytes tell: words, marks, and what stands between quotes. Comments are left out.

use crate::before::{begins, first_word};

/// A token.
#[derive(Clone, Copy)]
pub(crate) struct Token<'a> {
    pub(crate) at: usize,
    pub(crate) bytes: &'a [u8],
}

/// A text that is gone through, which is in front of a place where it is refused.
#[derive(Clone, Copy)]
pub(crate) struct Tokens<'a> {
    text: &'a [u8],
    at: usize,
}

/// How many bytes there are up to the end of a comment that is closed by this mark.
fn comment_length(text: &[u8], end: &str) -> usize {
    for at in 2..text.len() {
        if begins(text.get(at..).unwrap_or(&[]), end) {
            return at.saturating_add(end.len());
        }
    }
    text.len()
}

/// How many bytes a string has, or a part of a template up to its end or to `${`.
fn quoted_length(text: &[u8], quote: u8) -> usize {
    let mut is_escaped = false;
    for (at, byte) in text.iter().enumerate() {
        if at == 0 {
            continue;
        }
        if is_escaped {
            is_escaped = false;
        } else if *byte == b'\\' {
            is_escaped = true;
        } else if *byte == quote {
            return at.saturating_add(1);
        } else if quote == b'`' && begins(text.get(at..).unwrap_or(&[]), "${") {
            return at.saturating_add(2);
        }
    }
    text.len()
}

impl<'a> Tokens<'a> {
    pub(crate) fn new(text: &'a [u8]) -> Tokens<'a> {
        Tokens { text, at: 0 }
    }

    /// How long what stands here is, and whether it is a token.
    fn length(self, rest: &[u8]) -> (usize, bool) {
        let first = rest.first().copied().unwrap_or(b' ');
        let word = first_word(rest);
        if first.is_ascii_whitespace() {
            (1, false)
        } else if begins(rest, "//") {
            (comment_length(rest, "\n"), false)
        } else if begins(rest, "/*") {
            (comment_length(rest, "*/"), false)
        } else if matches!(first, b'"' | b'\'' | b'`') {
            (quoted_length(rest, first), true)
        } else if !word.is_empty() {
            (word.len(), true)
        } else {
            (1, true)
        }
    }

    /// The next token, where one is left; `is_template` says whether a part of a template begins here with `}`.
    pub(crate) fn next(&mut self, is_template: bool) -> Option<Token<'a>> {
        for _ in 0..self.text.len() {
            let rest = self.text.get(self.at..)?;
            let first = rest.first()?;
            let (length, is_token) = if is_template && *first == b'}' {
                (quoted_length(rest, b'`'), true)
            } else {
                self.length(rest)
            };
            let at = self.at;
            self.at = at.saturating_add(length.max(1));
            if is_token {
                let bytes = rest.get(..length).unwrap_or(rest);
                return Some(Token { at, bytes });
            }
        }
        None
    }
}
