//! Tests of what a token is.

ghost use Rattle.std.specs.Prelude.{◌≡◌};
ghost use Rattle.script_grammar.specs.Kinds as test;
ghost use Rattle.grammar_parser_specs.specs.Exprs as pure;
ghost use Rattle.parse_exprs.specs.Alone.{ends_assign, extends_operand};

use crate::precedence;
use script_grammar::token::{Kind, mark, word};

/// Whether a token of this kind is the mark of this index.
pub fn is_mark(kind: Kind, mark: u8) -> bool
    ensures { result ≡ test.is_mark mark kind }
{
    match kind {
        Kind::Mark(index) => index == mark,
        _ => false,
    }
}

/// Whether a token of this kind is the word of this index.
pub fn is_word(kind: Kind, word: u8) -> bool
    ensures { result ≡ test.is_word word kind }
{
    match kind {
        Kind::Word(index) => index == word,
        _ => false,
    }
}

/// Whether a token of this kind is a name.
pub fn is_name(kind: Kind) -> bool
    ensures { result ≡ test.is_name kind }
{
    matches!(kind, Kind::Name)
}

/// Whether a token of this kind is a number.
pub fn is_number(kind: Kind) -> bool
    ensures { result ≡ test.is_number kind }
{
    matches!(kind, Kind::Number)
}

/// Whether a token of this kind is a string.
pub fn is_str(kind: Kind) -> bool
    ensures { result ≡ test.is_str kind }
{
    matches!(kind, Kind::Str)
}

/// Whether a token of this kind is a template without substitutions.
pub fn is_whole(kind: Kind) -> bool
    ensures { result ≡ test.is_whole kind }
{
    matches!(kind, Kind::TemplateWhole)
}

/// Whether a token of this kind begins a template that has substitutions.
pub fn is_head(kind: Kind) -> bool
    ensures { result ≡ test.is_head kind }
{
    matches!(kind, Kind::TemplateHead)
}

/// Whether a token of this kind stands between two substitutions of a template.
pub fn is_middle(kind: Kind) -> bool
    ensures { result ≡ test.is_middle kind }
{
    matches!(kind, Kind::TemplateMiddle)
}

/// Whether a token of this kind ends a template that has substitutions.
pub fn is_tail(kind: Kind) -> bool
    ensures { result ≡ test.is_tail kind }
{
    matches!(kind, Kind::TemplateTail)
}

/// Whether a token of this kind ends all.
pub fn is_end(kind: Kind) -> bool
    ensures { result ≡ test.is_end kind }
{
    matches!(kind, Kind::End)
}

/// Whether a token of this kind is a name or a reserved word.
pub fn is_any_word(kind: Kind) -> bool
    ensures { result ≡ test.is_any_word kind }
{
    matches!(kind, Kind::Name | Kind::Word(_))
}

/// Whether a token of this kind is `=` or a mark from `+=` to `^=`.
pub fn is_assign_mark(kind: Kind) -> bool
    ensures { result ≡ test.is_assign_mark kind }
{
    match kind {
        Kind::Mark(index) => mark::ASSIGN <= index && index <= mark::BIT_XOR_ASSIGN,
        _ => false,
    }
}

/// Whether a token of this kind is a prefix operator beside `++` and `--`.
pub fn is_prefix(kind: Kind) -> bool
    ensures { result ≡ test.is_prefix kind }
{
    match kind {
        Kind::Mark(index) => {
            index == mark::PLUS
                || index == mark::MINUS
                || index == mark::BIT_NOT
                || index == mark::NOT
        }
        Kind::Word(index) => {
            index == word::DELETE || index == word::VOID || index == word::TYPEOF
        }
        _ => false,
    }
}

/// Whether a token of this kind is `++` or `--`.
pub fn is_update(kind: Kind) -> bool
    ensures { result ≡ test.is_update kind }
{
    match kind {
        Kind::Mark(index) => mark::INCREMENT <= index && index <= mark::DECREMENT,
        _ => false,
    }
}

/// Whether a token of this kind, after an operand of one token, may stand in one UnaryExpression with it: a member, a call,
/// `++` or `--`.
pub fn extends_operand(kind: Kind) -> bool
    ensures { result ≡ extends_operand kind }
{
    match kind {
        Kind::Mark(index) => {
            index == mark::DOT
                || index == mark::OPEN_BRACKET
                || index == mark::OPEN_PAREN
                || (mark::INCREMENT <= index && index <= mark::DECREMENT)
        }
        _ => false,
    }
}

/// Whether a token of this kind, after an operand, ends the AssignmentExpression that ends with it.
pub fn ends_assign(kind: Kind) -> bool
    ensures { result ≡ ends_assign kind }
{
    match kind {
        Kind::Mark(index) => {
            index == mark::COMMA
                || index == mark::CLOSE_PAREN
                || index == mark::SEMICOLON
                || index == mark::CLOSE_BRACKET
                || index == mark::CLOSE_BRACE
                || index == mark::COLON
        }
        _ => false,
    }
}

/// Whether a token of this kind is a binary operator.
pub fn is_binary(kind: Kind) -> bool
    ensures { result ≡ test.is_binary kind }
{
    precedence::level(kind) != precedence::NO_OPERATOR
}

/// The index of a mark or a word; 0 of what is neither.
pub fn mark_of(kind: Kind) -> u8
    ensures { result ≡ pure.mark_of kind }
{
    match kind {
        Kind::Mark(index) => index,
        Kind::Word(index) => index,
        _ => 0,
    }
}

/// Whether a token of this kind is a reserved word.
pub fn is_word_kind(kind: Kind) -> bool
    ensures { result ≡ pure.is_word_kind kind }
{
    matches!(kind, Kind::Word(_))
}

fn begins_word(index: u8) -> bool
    ensures { result ≡ pure.begins_word index }
{
    index == word::THIS
        || index == word::NULL
        || index == word::TRUE
        || index == word::FALSE
        || index == word::FUNCTION
        || index == word::NEW
        || index == word::DELETE
        || index == word::VOID
        || index == word::TYPEOF
}

fn begins_mark(index: u8) -> bool
    ensures { result ≡ pure.begins_mark index }
{
    index == mark::OPEN_PAREN
        || index == mark::OPEN_BRACKET
        || index == mark::OPEN_BRACE
        || index == mark::PLUS
        || index == mark::MINUS
        || index == mark::NOT
        || index == mark::BIT_NOT
        || index == mark::INCREMENT
        || index == mark::DECREMENT
}

/// Whether a token of this kind may begin an AssignmentExpression.
pub fn begins_assign(kind: Kind) -> bool
    ensures { result ≡ pure.begins_assign kind }
{
    match kind {
        Kind::Name => true,
        Kind::Number => true,
        Kind::Str => true,
        Kind::TemplateWhole => true,
        Kind::TemplateHead => true,
        Kind::Word(index) => begins_word(index),
        Kind::Mark(index) => begins_mark(index),
        _ => false,
    }
}

/// Whether a token of this kind is a PrimaryExpression by itself.
pub fn is_atom(kind: Kind) -> bool
    ensures { result ≡ pure.is_atom kind }
{
    match kind {
        Kind::Name => true,
        Kind::Number => true,
        Kind::Str => true,
        Kind::TemplateWhole => true,
        Kind::Word(index) => {
            index == word::THIS
                || index == word::NULL
                || index == word::TRUE
                || index == word::FALSE
        }
        _ => false,
    }
}

/// Whether a token of this kind stands after a name that is a key of its own.
pub fn ends_key(kind: Kind) -> bool
    ensures { result ≡ pure.ends_key kind }
{
    is_mark(kind, mark::COMMA)
        || is_mark(kind, mark::CLOSE_BRACE)
        || is_mark(kind, mark::COLON)
        || is_mark(kind, mark::OPEN_PAREN)
}
