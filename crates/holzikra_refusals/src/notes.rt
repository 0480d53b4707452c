//! The other place that a refusal speaks of: the first declaration of a name, or a bracket that is not closed. It is looked for among the
//! tokens in front of the refused one, and is a guess, as the codes of forms are.

use crate::before::{first_word, is_word};
use crate::code::{Code, Rule};
use crate::tokens::{Token, Tokens};
use std::alloc::{AllocError, Global};

/// What is said of another place.
#[derive(Clone, Copy, Debug, PartialEq, Eq)]
pub struct Note {
    /// The place, in bytes from 0.
    pub offset: usize,
    pub words: &'static str,
}

/// A bracket that is open.
#[derive(Clone, Copy)]
struct Open {
    at: usize,
    /// `(`, `[` or `{`; a back quote where code stands in a template.
    byte: u8,
}

/// An earlier place of the name.
#[derive(Clone, Copy)]
struct Mention {
    at: usize,
    /// How many brackets are around it.
    level: usize,
    /// The innermost one of them.
    inside: Option<Open>,
    /// Whether it stands where a name is declared.
    declares: bool,
    /// Whether it is the parameter of a `catch`.
    catches: bool,
}

/// What was found in front of the place.
#[derive(Drop)]
struct Found {
    /// The brackets that are open at the place, the outermost one first.
    open: Vec<Open>,
    mentions: Vec<Mention>,
    /// The last place of the name with `:` behind it.
    label: Option<usize>,
}

/// What the last tokens were.
#[derive(Clone, Copy)]
struct Last<'a> {
    at: usize,
    token: &'a [u8],
    /// The one in front of it.
    before: &'a [u8],
    /// Whether a comma behind it begins a further name of a declaration.
    declares: bool,
}

/// Whether a word declares the name behind it and those behind commas.
fn is_declaring(word: &[u8]) -> bool {
    is_word(word, "let") || is_word(word, "const") || is_word(word, "var")
}

/// The bracket that a token opens, if it does.
fn opened(token: Token<'_>) -> Option<Open> {
    let at = token.at;
    if token.bytes.ends_with(b"${".as_slice()) {
        return Some(Open { at, byte: b'`' });
    }
    match token.bytes {
        [byte @ (b'(' | b'[' | b'{')] => Some(Open { at, byte: *byte }),
        _ => None,
    }
}

/// The last tokens behind one more.
fn after<'a>(last: Last<'a>, token: Token<'a>) -> Last<'a> {
    let bytes = token.bytes;
    let ends = matches!(bytes.first(), Some(b';' | b'{' | b'}' | b'(' | b')'));
    Last {
        at: token.at,
        token: bytes,
        before: last.token,
        declares: is_declaring(bytes) || (last.declares && !ends),
    }
}

impl Found {
    /// The innermost bracket that is open.
    fn innermost(&self) -> Option<Open> {
        self.open.last().copied()
    }

    /// Whether `}` goes on with a template here.
    fn is_in_template(&self) -> bool {
        match self.innermost() {
            Some(open) => open.byte == b'`',
            None => false,
        }
    }

    /// Notes the brackets of a token.
    fn take_bracket(&mut self, token: Token<'_>) -> Result<(), AllocError> {
        if matches!(token.bytes.first(), Some(b')' | b']' | b'}')) {
            let _closed = self.open.pop();
        }
        if let Some(open) = opened(token) {
            self.open.push(open)?;
        }
        Ok(())
    }

    /// Notes a token that is the name.
    fn mention(&mut self, at: usize, last: Last<'_>) -> Result<(), AllocError> {
        if is_word(last.token, ".") {
            return Ok(());
        }
        let declares = is_declaring(last.token)
            || is_word(last.token, "function")
            || (last.declares && is_word(last.token, ","));
        let mention = Mention {
            at,
            level: self.open.len(),
            inside: self.innermost(),
            declares,
            catches: is_word(last.token, "(") && is_word(last.before, "catch"),
        };
        self.mentions.push(mention)?;
        Ok(())
    }

    /// Whether the innermost bracket around a place of the name is around the refused token too.
    fn is_around(&self, mention: Mention) -> bool {
        match mention.inside {
            None => true,
            Some(open) => match self.open.get(mention.level.saturating_sub(1)) {
                None => false,
                Some(other) => other.at == open.at,
            },
        }
    }

    /// Where the name is declared first in the innermost block around the refused token that declares it; where none does, where it is
    /// declared last.
    fn declared(&self) -> Option<usize> {
        let mut around: Option<Mention> = None;
        let mut last = None;
        for mention in &self.mentions {
            if !mention.declares {
                continue;
            }
            last = Some(mention.at);
            let is_inner = match around {
                None => true,
                Some(outer) => outer.level < mention.level,
            };
            if is_inner && self.is_around(*mention) {
                around = Some(*mention);
            }
        }
        match around {
            None => last,
            Some(mention) => Some(mention.at),
        }
    }

    /// The first place of the name inside the innermost bracket.
    fn first_beside(&self) -> Option<usize> {
        for mention in &self.mentions {
            if mention.level == self.open.len() && self.is_around(*mention) {
                return Some(mention.at);
            }
        }
        None
    }

    /// The last place of the name between the parentheses in front of the innermost bracket.
    fn parameter(&self) -> Option<usize> {
        let body = match self.innermost() {
            None => usize::MAX,
            Some(open) => open.at,
        };
        let mut last = None;
        for mention in &self.mentions {
            let is_in_parentheses = match mention.inside {
                None => false,
                Some(open) => open.byte == b'(',
            };
            if is_in_parentheses && mention.at < body {
                last = Some(mention.at);
            }
        }
        last
    }

    /// The last place of the name as the parameter of a `catch`.
    fn caught(&self) -> Option<usize> {
        let mut last = None;
        for mention in &self.mentions {
            if mention.catches {
                last = Some(mention.at);
            }
        }
        last
    }
}

/// What the tokens of a text tell of a name and of brackets.
fn found_in(alloc: Global, text: &[u8], name: &[u8]) -> Result<Found, AllocError> {
    let mut found = Found {
        open: Vec::new(alloc),
        mentions: Vec::new(alloc),
        label: None,
    };
    let mut tokens = Tokens::new(text);
    let mut last = Last {
        at: 0,
        token: &[],
        before: &[],
        declares: false,
    };
    for _ in 0..text.len() {
        let Some(token) = tokens.next(found.is_in_template()) else {
            break;
        };
        found.take_bracket(token)?;
        if token.bytes == name {
            found.mention(token.at, last)?;
        } else if is_word(token.bytes, ":") && last.token == name {
            found.label = Some(last.at);
        }
        last = after(last, token);
    }
    Ok(found)
}

/// The words for a bracket that is not closed.
fn open_words(byte: u8) -> &'static str {
    match byte {
        b'(' => "this `(` is not closed",
        b'[' => "this `[` is not closed",
        b'{' => "this `{` is not closed",
        _ => "this `${` is not closed",
    }
}

/// The note of an early error at a name.
fn rule_note(rule: Rule, found: &Found) -> Option<Note> {
    let (offset, words) = match rule {
        Rule::LexicalTwice | Rule::LexicalAndVar => (found.declared(), "first declared here"),
        Rule::LoopHead => (found.declared(), "declared by the head here"),
        Rule::CatchParameter => (found.caught(), "the catch parameter"),
        Rule::Parameter => (found.parameter(), "the parameter"),
        Rule::ParameterTwice | Rule::Proto => (found.first_beside(), "the first one"),
        Rule::Jump => (found.label, "the outer label"),
        _ => (None, ""),
    };
    Some(Note {
        offset: offset?,
        words,
    })
}

/// The note of a text that ends too early.
fn end_note(found: &Found) -> Option<Note> {
    let open = found.innermost()?;
    Some(Note {
        offset: open.at,
        words: open_words(open.byte),
    })
}

/// What is said of another place of a text that is refused with this code at this offset, if something is. It takes time in proportion to
/// the text in front of the offset.
pub fn note_of(
    alloc: Global,
    code: Code,
    text: &[u8],
    at: usize,
) -> Result<Option<Note>, AllocError> {
    let front = text.get(..at).unwrap_or(text);
    let name = first_word(text.get(at..).unwrap_or(&[]));
    match code {
        Code::Unexpected if at >= text.len() => {
            let found = found_in(alloc, front, &[])?;
            Ok(end_note(&found))
        }
        Code::Early(rule) if !name.is_empty() => {
            let found = found_in(alloc, front, name)?;
            Ok(rule_note(rule, &found))
        }
        _ => Ok(None),
    }
}
