//! The tokens of two texts.

use parser_atoms::Atoms;
use script_grammar::compact::CompactToken;
use script_grammar::token::{Kind, Token, mark, word};
use script_scanner::{scan, scan_ascii};
use std::alloc::Global;
use std::test::Fail;
use unit_text::decode;

fn token(kind: Kind, value: u64, start: u32, end: u32, after_line: bool) -> Token {
    Token {
        kind,
        value,
        start,
        end,
        after_line,
    }
}

/// The tokens of "let a\n= `${1}`": kind, value, start, end, and whether a line ends before it.
const TOKENS: [(Kind, u64, u32, u32, bool); 7] = [
    (Kind::Word(word::LET), 0, 0, 3, false),
    (Kind::Name, 1, 4, 5, false),
    (Kind::Mark(mark::ASSIGN), 0, 6, 7, true),
    (Kind::TemplateHead, 2, 8, 11, false),
    (Kind::Number, 1, 11, 12, false),
    (Kind::TemplateTail, 2, 12, 14, false),
    (Kind::End, 0, 14, 14, false),
];

#[test]
fn tokens_have_their_places(rt: HostRuntime) -> Result<(), Fail> {
    let points = decode(rt.alloc(), b"let a\n= `${1}`")?;
    let mut atoms = Atoms::new(rt.alloc());
    let tokens = scan(rt.alloc(), points.as_slice(), 0, 14, &mut atoms)?;
    assert!(rt; tokens.len() == TOKENS.len());
    for (number, (kind, value, start, end, after_line)) in TOKENS.into_iter().enumerate() {
        let found = tokens.get(number).map(|found| found.get());
        assert!(rt; found == Some(token(kind, value, start, end, after_line)));
    }
    Ok(())
}

/// The tokens of a short text of ASCII, by its bytes, and how many different texts they have.
fn tokens_of_bytes(alloc: Global, text: &[u8]) -> Result<(Vec<CompactToken>, usize), Fail> {
    let mut atoms = Atoms::new(alloc);
    if text.is_ascii() && text.len() < 1000 {
        let tokens = scan_ascii(alloc, text, 0, &mut atoms)?;
        Ok((tokens, atoms.len()))
    } else {
        Err(Fail::from("no short text of ASCII"))
    }
}

#[test]
fn bytes_of_ascii_have_the_same_tokens(rt: HostRuntime) -> Result<(), Fail> {
    let text = b"#!x\n/* a\n */ if (b1 >= 0x1F) { c = 'd\\x41' } // e";
    let points = decode(rt.alloc(), text)?;
    let mut atoms = Atoms::new(rt.alloc());
    let tokens = scan(rt.alloc(), points.as_slice(), 0, 49, &mut atoms)?;
    let (again, texts) = tokens_of_bytes(rt.alloc(), text)?;
    assert!(rt; texts == 4 && tokens.len() == 12 && again.len() == 12);
    for (one, other) in again.iter().zip(tokens.iter()) {
        assert!(rt; one.get() == other.get());
    }
    assert!(rt; tokens[0].get() == token(Kind::Word(word::IF), 0, 13, 15, true));
    Ok(())
}
