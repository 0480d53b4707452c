//! Parts of statements that hold neither expressions nor statements.

ghost use Rattle.std.specs.Prelude.{◌≡◌};
ghost use Rattle.script_grammar.specs.Interpretation.{Interpretation};
ghost use Rattle.grammar_parser_specs.specs.Parser.{head_of, rest_of};
ghost use Rattle.grammar_parser_specs.specs.Stmts as pure;
ghost use Rattle.parse_exprs.specs.Answers.{Reads};
ghost use Rattle.parse_exprs.specs.Means.{Itself, NameOf, MaybeNameOf};
ghost use Rattle.parse_exprs.specs.Source.{IsSource, front};
ghost use Rattle.parse_bodies.specs.Means.{stmt_ending};

use crate::ending::{StmtEnding, may_omit};
use parse_exprs::kinds::{is_end, is_mark, is_name};
use parse_exprs::place::{Cursor, ParseFault};
use parse_exprs::source::Source;
use parse_exprs::token;
use script_grammar::token::mark;
use script_grammar::tree::Ident;

/// Goes past this word, which must stand here.
#[tactic(auto, unfolding(grammar_parser_specs::specs::Stmts::expect_word))]
pub fn expect_word(place: &mut Cursor, source: &Source, word: u8) -> Result<(), ParseFault>
    requires { IsSource source.now }
    ensures { (i : Interpretation) → Reads Itself (pure.expect_word word) source.now i place.old place.new result }
{
    if !place.is_word(source, word) {
        return Err(ParseFault::Unexpected { token: place.at });
    }
    place.step(source);
    Ok(())
}

/// Goes past a semicolon, or leaves it out, after a statement with this ending; whether it is written.
#[tactic(auto, unfolding(grammar_parser_specs::specs::Stmts::semi_of))]
pub fn semi(place: &mut Cursor, source: &Source, ending: StmtEnding) -> Result<bool, ParseFault>
    requires { IsSource source.now }
    ensures { (i : Interpretation) → Reads Itself (pure.semi_of (stmt_ending ending)) source.now i place.old place.new result }
{
    if place.is_mark(source, mark::SEMICOLON) {
        place.step(source);
        return Ok(true);
    }
    if may_omit(place, source, ending) {
        return Ok(false);
    }
    Err(ParseFault::Unexpected { token: place.at })
}

/// Reads a label on the line of its word, where one stands here.
#[tactic(auto, unfolding(grammar_parser_specs::specs::Stmts::label_name))]
pub fn label_name(place: &mut Cursor, source: &Source) -> Result<Option<Ident>, ParseFault>
    requires { IsSource source.now }
    ensures { (i : Interpretation) → Reads (MaybeNameOf i) pure.label_name source.now i place.old place.new result }
{
    let token = place.token(source);
    if !is_name(token.kind) || token.after_line {
        return Ok(None);
    }
    place.step(source);
    Ok(Some(token::ident(token)))
}

/// Whether a line end stands before the present token.
pub fn after_line(place: &Cursor, source: &Source) -> bool
    requires { IsSource source.now }
    ensures { (i : Interpretation) → result ≡ (head_of (front source.now i place.now.at)).after_line }
{
    place.token(source).after_line
}

/// Whether a `return` before the present token has no value.
pub fn ends_return(place: &Cursor, source: &Source) -> bool
    requires { IsSource source.now }
    ensures { (i : Interpretation) → result ≡ pure.ends_return (head_of (front source.now i place.now.at)) }
{
    let token = place.token(source);
    token.after_line
        || is_mark(token.kind, mark::SEMICOLON)
        || is_mark(token.kind, mark::CLOSE_BRACE)
        || is_end(token.kind)
}

/// Whether a label stands here: a name and a colon after it.
pub fn is_label(place: &Cursor, source: &Source) -> bool
    requires { IsSource source.now }
    ensures { (i : Interpretation) → result ≡ pure.is_label (head_of (front source.now i place.now.at))
        (head_of (rest_of (front source.now i place.now.at))) }
{
    let next = source.token(place.at as usize + 1);
    place.is_name(source) && is_mark(next.kind, mark::COLON)
}

/// Reads the parameter of a `catch` after its parenthesis, and the one that closes it.
#[tactic(auto, unfolding(grammar_parser_specs::specs::Stmts::catch_name))]
fn catch_name(place: &mut Cursor, source: &Source) -> Result<Ident, ParseFault>
    requires { IsSource source.now }
    ensures { (i : Interpretation) → Reads (NameOf i) pure.catch_name source.now i place.old place.new result }
{
    let name = place.name(source)?;
    place.expect(source, mark::CLOSE_PAREN)?;
    Ok(name)
}

/// Reads the parameter of a `catch` with its parentheses, where it has one.
#[tactic(auto, unfolding(grammar_parser_specs::specs::Stmts::catch_param))]
pub fn catch_param(place: &mut Cursor, source: &Source) -> Result<Option<Ident>, ParseFault>
    requires { IsSource source.now }
    ensures { (i : Interpretation) → Reads (MaybeNameOf i) pure.catch_param source.now i place.old place.new result }
{
    if !place.is_mark(source, mark::OPEN_PAREN) {
        return Ok(None);
    }
    place.step(source);
    let name = catch_name(place, source)?;
    Ok(Some(name))
}
