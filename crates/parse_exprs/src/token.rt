//! What a token says.

ghost use Rattle.std.specs.Prelude.{◌≡◌, true, ℕ};
ghost use Rattle.script_grammar.specs.Interpretation.{Interpretation, named, text_of};
ghost use Rattle.script_grammar.specs.Lexeme.{lexeme_of};
ghost use Rattle.script_grammar.specs.Kinds as test;
ghost use Rattle.grammar_parser_specs.specs.Exprs as pure;
ghost use Rattle.parse_exprs.specs.Source.{HasAtom, has_atom};

use script_grammar::token::Token;
use script_grammar::tree::Ident;

/// The atom of a token that has one.
pub fn atom(token: Token) -> u32
    requires has { has_atom token.kind ≡ true }
    requires small { HasAtom token }
    ensures value { result ≡ token.value }
{
    token.value as u32
}

/// The atom of a token that has one, with its place.
pub fn ident(token: Token) -> Ident
    requires has { has_atom token.kind ≡ true }
    requires small { HasAtom token }
    ensures atom { result.atom ≡ token.value }
    ensures at { result.at ≡ token.start }
{
    Ident {
        atom: atom(token),
        at: token.start,
    }
}
