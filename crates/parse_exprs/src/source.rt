//! What is read.

ghost use Rattle.std.specs.Prelude.{◌≡◌, true, suc, take};
ghost use Rattle.script_grammar.specs.Interpretation.{Interpretation};
ghost use Rattle.script_grammar.specs.Kinds as test;
ghost use Rattle.script_grammar.specs.Lexeme.{lexeme_of};
ghost use Rattle.grammar_parser_specs.specs.Parser.{head_of};
ghost use Rattle.parse_exprs.specs.Source.{IsSource, IsScanned, HasAtom, front};
ghost use Rattle.script_grammar.specs.Matching.{IsMatching, kinds_of};

use script_grammar::brackets::Brackets;
use script_grammar::compact::CompactToken;
use script_grammar::token::{Kind, Token};

/// The tokens that a parser reads, which of them match as brackets, and the atoms of `get` and `set`.
#[derive(Drop)]
pub struct Source<'a> {
    pub tokens: &'a [CompactToken],
    pub brackets: &'a Brackets,
    pub get: u32,
    pub set: u32,
}

impl<'a> Source<'a> {
    /// The tokens of a text, as far as its brackets match: nothing is read after the brackets' stop. `get` and `set` are
    /// the atoms of these names.
    pub fn new(tokens: &'a [CompactToken], brackets: &'a Brackets, get: u32, set: u32) -> Source<'a>
        requires scanned { IsScanned tokens.now }
        requires matching { IsMatching (kinds_of tokens.now) brackets.now }
        ensures is { IsSource result }
        ensures tokens { result.tokens.now ≡ take (suc brackets.now.stop) tokens.now }
        ensures atoms { (result.get ≡ get) × (result.set ≡ set) }
    {
        let stop = brackets.stop() as usize;
        Source {
            tokens: &tokens[..stop + 1],
            brackets,
            get,
            set,
        }
    }

    /// The token of this number; after the last one, a token that ends all.
    pub fn token(&self, at: usize) -> Token
        requires { IsSource self.now }
        ensures lexeme { (i : Interpretation) → lexeme_of self.now.get self.now.set i.texts result ≡ head_of (front self.now i at) }
        ensures atom { HasAtom result }
    {
        if at < self.tokens.len() {
            self.tokens[at].get()
        } else {
            Token {
                kind: Kind::End,
                value: 0,
                start: 0,
                end: 0,
                after_line: false,
            }
        }
    }

    /// Whether this token is the name `get`.
    pub fn is_get(&self, token: Token) -> bool
        requires { test.is_name token.kind ≡ true }
        ensures { (i : Interpretation) → result ≡ test.is_get (lexeme_of self.now.get self.now.set i.texts token).role }
    {
        token.value == self.get as u64
    }

    /// Whether this token is the name `set`.
    pub fn is_set(&self, token: Token) -> bool
        requires { test.is_name token.kind ≡ true }
        ensures { (i : Interpretation) → result ≡ test.is_set (lexeme_of self.now.get self.now.set i.texts token).role }
    {
        token.value != self.get as u64 && token.value == self.set as u64
    }
}
