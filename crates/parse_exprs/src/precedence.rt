//! How tightly binary operators bind.
//!
//! A level is a production of ECMA-262 (12th edition), numbered from the tightest on. Up to a level an expression is read as
//! what the tightest level reads, and then operands for one operator after another, each of a looser level than the one before.

ghost use Rattle.std.specs.Prelude.{◌≡◌, ◌<◌, ◌≤◌};
ghost use Rattle.script_grammar.specs.Kinds as test;
ghost use Rattle.grammar_parser_specs.specs.Exprs as pure;
ghost use Rattle.parse_exprs.specs.Levels.{loose_level, level_with, operand_level, reads_on};

use crate::kinds;
use script_grammar::token::{Kind, mark, word};

/// An ExponentiationExpression, `**`: ECMA-262, 13.6.
pub const EXPONENTIATION: u32 = 0;

/// A MultiplicativeExpression, `*`, `/` and `%`: ECMA-262, 13.7.
pub const MULTIPLICATIVE: u32 = 1;

/// An AdditiveExpression, `+` and `-`: ECMA-262, 13.8.
pub const ADDITIVE: u32 = 2;

/// A ShiftExpression, `<<`, `>>` and `>>>`: ECMA-262, 13.9.
pub const SHIFT: u32 = 3;

/// A RelationalExpression, `<`, `>`, `<=`, `>=`, `instanceof` and `in`: ECMA-262, 13.10.
pub const RELATIONAL: u32 = 4;

/// An EqualityExpression, `==`, `!=`, `===` and `!==`: ECMA-262, 13.11.
pub const EQUALITY: u32 = 5;

/// A BitwiseANDExpression, `&`: ECMA-262, 13.12.
pub const BITWISE_AND: u32 = 6;

/// A BitwiseXORExpression, `^`: ECMA-262, 13.12.
pub const BITWISE_XOR: u32 = 7;

/// A BitwiseORExpression, `|`: ECMA-262, 13.12.
pub const BITWISE_OR: u32 = 8;

/// A LogicalANDExpression, `&&`: ECMA-262, 13.13.
pub const LOGICAL_AND: u32 = 9;

/// A LogicalORExpression, `||`: ECMA-262, 13.13.
pub const LOGICAL_OR: u32 = 10;

/// A CoalesceExpression, `??`, and with it a ShortCircuitExpression: ECMA-262, 13.13.
pub const COALESCE: u32 = 11;

/// What is no binary operator.
pub const NO_OPERATOR: u32 = 12;

/// The level of a mark that stands from `<` to `??` in their order.
fn mark_level(index: u8) -> u32
    ensures { result ≡ test.mark_level index }
{
    if index == mark::POWER {
        EXPONENTIATION
    } else if mark::TIMES <= index && index <= mark::REMAINDER {
        MULTIPLICATIVE
    } else if mark::PLUS <= index && index <= mark::MINUS {
        ADDITIVE
    } else if mark::LEFT_SHIFT <= index && index <= mark::UNSIGNED_RIGHT_SHIFT {
        SHIFT
    } else if mark::LESS <= index && index <= mark::GREATER_EQUAL {
        RELATIONAL
    } else {
        loose_mark_level(index)
    }
}

/// The same of a mark that binds no tighter than `==`.
fn loose_mark_level(index: u8) -> u32
    ensures { result ≡ loose_level index }
{
    if mark::EQUAL <= index && index <= mark::STRICT_NOT_EQUAL {
        EQUALITY
    } else if index == mark::BIT_AND {
        BITWISE_AND
    } else if index == mark::BIT_XOR {
        BITWISE_XOR
    } else if index == mark::BIT_OR {
        BITWISE_OR
    } else if index == mark::AND {
        LOGICAL_AND
    } else if index == mark::OR {
        LOGICAL_OR
    } else if index == mark::COALESCE {
        COALESCE
    } else {
        NO_OPERATOR
    }
}

/// The level of a mark as a binary operator. All operators stand from `<` to `??`, so most other marks need one test.
fn operator_level(index: u8) -> u32
    ensures { result ≡ test.mark_level index }
{
    if index < mark::LESS || mark::COALESCE < index {
        return NO_OPERATOR;
    }
    mark_level(index)
}

/// The level of a token of this kind as a binary operator.
pub fn level(kind: Kind) -> u32
    ensures { result ≡ test.kind_level kind }
{
    match kind {
        Kind::Mark(index) => operator_level(index),
        Kind::Word(index) => {
            if word::IN <= index && index <= word::INSTANCEOF {
                RELATIONAL
            } else {
                NO_OPERATOR
            }
        }
        _ => NO_OPERATOR,
    }
}

/// The same where `in` is an operator only if the flag says so: the grammar's parameter In.
pub fn level_with(kind: Kind, with_in: bool) -> u32
    ensures { result ≡ level_with with_in kind }
{
    if with_in || !kinds::is_word(kind, word::IN) {
        return level(kind);
    }
    NO_OPERATOR
}

/// Whether a token of this kind is an operator of this level; `in` only where the flag says so.
pub fn is_op(kind: Kind, with_in: bool, of: u32) -> bool
    ensures { result ≡ pure.is_op with_in of kind }
{
    level(kind) == of && (with_in || !kinds::is_word(kind, word::IN))
}

/// The level of the operands of an operator of this level: the one before it. Those of `??` are of the level of `|`, so that
/// it stands beside `&&` and `||` only where one of them is in parentheses (ECMA-262, 13.13).
pub fn operand_level(level: u32) -> u32
    requires above { EXPONENTIATION < level }
    requires within { level ≤ COALESCE }
    ensures { result ≡ operand_level level }
{
    if level == COALESCE {
        return BITWISE_OR;
    }
    level - 1
}

/// Whether an operator of the level `next` takes what was read up to the level `read` for its first operand, where no level
/// after `last` is read.
pub fn reads_on(read: u32, next: u32, last: u32) -> bool
    requires { last ≤ COALESCE }
    ensures { result ≡ reads_on read next last }
{
    EXPONENTIATION < next && next <= last && read <= operand_level(next)
}
