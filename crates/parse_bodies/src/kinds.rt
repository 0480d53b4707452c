//! Tests of what a token is, as the parser of statements asks them.

ghost use Rattle.std.specs.Prelude.{◌≡◌};
ghost use Rattle.grammar_parser_specs.specs.Stmts as pure;
ghost use Rattle.parse_bodies.specs.Means.{place_of};

use crate::position::Position;
use parse_exprs::kinds::{begins_assign, is_end, is_mark, is_word};
use script_grammar::token::{Kind, mark, word};

/// Whether a token of this kind is a word that begins a statement everywhere.
fn begins_plain(kind: Kind) -> bool
    ensures { result ≡ pure.begins_plain kind }
{
    is_word(kind, word::VAR)
        || is_word(kind, word::DEBUGGER)
        || is_word(kind, word::IF)
        || is_word(kind, word::WHILE)
        || is_word(kind, word::DO)
        || is_word(kind, word::FOR)
        || is_word(kind, word::CONTINUE)
        || is_word(kind, word::BREAK)
        || is_word(kind, word::THROW)
        || is_word(kind, word::SWITCH)
        || is_word(kind, word::TRY)
}

/// Whether a token of this kind is a word that begins a declaration other than `var`.
fn begins_declaration(kind: Kind) -> bool
    ensures { result ≡ pure.begins_declaration kind }
{
    is_word(kind, word::LET) || is_word(kind, word::CONST) || is_word(kind, word::FUNCTION)
}

/// Whether a token of this kind may begin a statement at this position.
pub fn begins_stmt(position: Position, kind: Kind) -> bool
    ensures { result ≡ pure.begins_stmt (place_of position) kind }
{
    (begins_assign(kind) && !is_word(kind, word::FUNCTION))
        || is_mark(kind, mark::SEMICOLON)
        || begins_plain(kind)
        || (position.is_item() && begins_declaration(kind))
        || (position.returns() && is_word(kind, word::RETURN))
}

/// Whether a token of this kind stands after a list of statements.
pub fn ends_items(kind: Kind) -> bool
    ensures { result ≡ pure.ends_items kind }
{
    is_mark(kind, mark::CLOSE_BRACE)
        || is_end(kind)
        || is_word(kind, word::CASE)
        || is_word(kind, word::DEFAULT)
}
