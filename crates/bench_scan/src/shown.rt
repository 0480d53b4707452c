//! Tokens as a reader of the table sees them.
use crate::reading::tokens_of;
use anyhow::{Result, bail};
use parser_atoms::Atoms;
use script_grammar::token::{Kind, Token};
use std::alloc::{AllocError, Global};
use std::fmt::Write;

/// The marks, in the order of their indexes.
const MARKS: &str =
    "{ } ( ) [ ] ; , < > <= >= == != === !== + - * / % ** ++ -- << >> >>> & | ^ ! ~ && || ?? ? : = += -= *= /= %= **= <<= >>= >>>= &= |= ^= => . ... ?. &&= ||= ??=";

/// The words, in the order of their indexes.
const WORDS: &str =
    "break case catch class const continue debugger default delete do else enum export extends false finally for function if implements import in instanceof interface let new null package private protected public return static super switch this throw true try typeof var void while with yield";

/// A text of the table, in which ␊ stands for a line feed, ␍ for a carriage return and ␉ for a tab.
pub fn plain_text(alloc: Global, text: &str) -> Result<String, AllocError> {
    let mut plain = String::new(alloc);
    for letter in text.chars() {
        let meant = match letter {
            '␊' => '\n',
            '␍' => '\r',
            '␉' => '\t',
            _ => letter,
        };
        plain.push(meant)?;
    }
    Ok(plain)
}

/// The tokens of a text: a word, mark or number as it is written, `a:` before a name, `s:` before a string's units, `w:`,
/// `h:`, `m:` and `t:` before those of a template that is whole, or of its head, middle and tail, `BAD` and `END`; `^` before
/// a token after a line end.
pub fn shown(alloc: Global, text: &str) -> Result<String> {
    if text.len() > 1000 {
        bail!("a long row");
    }
    let (tokens, atoms) = tokens_of(alloc, text.as_bytes())?;
    let mut line = String::new(alloc);
    for found in &tokens {
        let token = found.get();
        if !line.is_empty() {
            line.push(' ')?;
        }
        if token.after_line {
            line.push('^')?;
        }
        push_token(&mut line, &token, &atoms)?;
    }
    Ok(line)
}

fn push_token(line: &mut String, token: &Token, atoms: &Atoms) -> Result<(), AllocError> {
    match token.kind {
        Kind::Name => push_text(line, "a:", token, atoms),
        Kind::Number => {
            let value = token.value;
            write!(line, "{value}")
        }
        Kind::Str => push_text(line, "s:", token, atoms),
        Kind::TemplateWhole => push_text(line, "w:", token, atoms),
        Kind::TemplateHead => push_text(line, "h:", token, atoms),
        Kind::TemplateMiddle => push_text(line, "m:", token, atoms),
        Kind::TemplateTail => push_text(line, "t:", token, atoms),
        Kind::Word(index) => push_listed(line, WORDS, index),
        Kind::Mark(index) => push_listed(line, MARKS, index),
        Kind::Bad => line.push_str("BAD"),
        Kind::End => line.push_str("END"),
    }
}

fn push_listed(line: &mut String, list: &str, index: u8) -> Result<(), AllocError> {
    match list.split(' ').nth(usize::from(index)) {
        Some(text) => line.push_str(text),
        None => line.push_str("?!"),
    }
}

fn push_text(
    line: &mut String,
    sign: &str,
    token: &Token,
    atoms: &Atoms,
) -> Result<(), AllocError> {
    line.push_str(sign)?;
    let Ok(atom) = u32::try_from(token.value) else {
        return line.push_str("?!");
    };
    if atom as usize >= atoms.len() {
        return line.push_str("?!");
    }
    for unit in atoms.text(atom).units() {
        if (0x21 <= *unit) & (*unit <= 0x7E) {
            let Some(letter) = char::from_u32(u32::from(*unit)) else {
                continue;
            };
            line.push(letter)?;
        } else {
            let number = *unit;
            write!(line, "‹{number:04x}›")?;
        }
    }
    Ok(())
}
