//! How a statement ends whose semicolon is left out.

ghost use Rattle.std.specs.Prelude.{◌≡◌};
ghost use Rattle.script_grammar.specs.Interpretation.{Interpretation};
ghost use Rattle.script_grammar.specs.Pieces as grammar;
ghost use Rattle.grammar_parser_specs.specs.Parser.{head_of};
ghost use Rattle.parse_exprs.specs.Source.{IsSource, front};
ghost use Rattle.parse_bodies.specs.Means.{stmt_ending};

use parse_exprs::kinds::{is_assign_mark, is_binary, is_end, is_head, is_mark, is_whole};
use parse_exprs::part::Ending;
use parse_exprs::place::Cursor;
use parse_exprs::source::Source;
use script_grammar::token::{Kind, mark};

/// How a statement ends, as far as a semicolon that is left out after it asks.
#[derive(Clone, Copy, Debug)]
pub enum StmtEnding {
    /// With an expression.
    Value(Ending),
    /// With a binding that has no initializer.
    BareBinding,
    /// With `return`, `break` or `continue` that has nothing after it, with a label, or with `debugger`.
    Keyword,
    /// With the parenthesis of a do-while.
    DoWhile,
}

/// Whether a token of this kind continues an expression whose last part is a postfix operator.
fn continues_postfix(kind: Kind) -> bool
    ensures { result ≡ grammar.continues_postfix kind }
{
    is_mark(kind, mark::COMMA) || is_mark(kind, mark::QUESTION) || is_binary(kind)
}

/// Whether a token of this kind continues an expression whose last part is an operand.
fn continues_operand(kind: Kind) -> bool
    ensures { result ≡ grammar.continues grammar.Operand kind }
{
    is_mark(kind, mark::OPEN_PAREN)
        || is_mark(kind, mark::OPEN_BRACKET)
        || is_mark(kind, mark::DOT)
        || continues_postfix(kind)
        || is_whole(kind)
        || is_head(kind)
        || is_assign_mark(kind)
}

/// Whether a token of this kind continues a statement with this ending.
fn continues(ending: StmtEnding, kind: Kind) -> bool
    ensures { result ≡ grammar.continues (stmt_ending ending) kind }
{
    match ending {
        StmtEnding::Value(Ending::BracedArrow) => is_mark(kind, mark::COMMA),
        StmtEnding::Value(Ending::Postfix) => continues_postfix(kind),
        StmtEnding::Value(Ending::Operand) => continues_operand(kind),
        StmtEnding::BareBinding => is_mark(kind, mark::ASSIGN) || is_mark(kind, mark::COMMA),
        StmtEnding::Keyword => false,
        StmtEnding::DoWhile => false,
    }
}

fn is_do_while(ending: StmtEnding) -> bool
    ensures { result ≡ grammar.is_do_while (stmt_ending ending) }
{
    matches!(ending, StmtEnding::DoWhile)
}

/// Whether a semicolon may be left out before the present token, after a statement with this ending.
pub fn may_omit(place: &Cursor, source: &Source, ending: StmtEnding) -> bool
    requires { IsSource source.now }
    ensures { (i : Interpretation) → result ≡ grammar.may_omit (stmt_ending ending) (head_of (front source.now i place.now.at)) }
{
    let token = place.token(source);
    !is_mark(token.kind, mark::SEMICOLON)
        && (is_mark(token.kind, mark::CLOSE_BRACE)
            || is_end(token.kind)
            || is_do_while(ending)
            || (token.after_line && !continues(ending, token.kind)))
}
