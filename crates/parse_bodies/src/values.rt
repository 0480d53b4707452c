//! Statements that hold expressions and no statements.

ghost use Rattle.std.specs.Prelude.{◌≡◌, option_map};
ghost use Rattle.script_grammar.specs.Interpretation.{Interpretation};
ghost use Rattle.script_grammar.specs.Shows.{NodeOf, MaybeOf};
ghost use Rattle.grammar_parser_specs.specs.Stmts as pure;
ghost use Rattle.parse_exprs.specs.Answers.{Reads};
ghost use Rattle.parse_exprs.specs.Env.{env_at};
ghost use Rattle.parse_exprs.specs.Means.{RankedOf};
ghost use Rattle.parse_exprs.specs.Source.{IsSource};
ghost use Rattle.parse_bodies.specs.Means.{StmtOf, ReturnedOf, returned_ending};

use crate::ending::StmtEnding;
use crate::part::StmtNode;
use crate::pieces::{after_line, ends_return, semi};
use parse_exprs::part::Ranked;
use parse_exprs::place::ParseFault;
use parse_exprs::source::Source;
use parse_exprs::state::State;
use script_grammar::handler::Handler;
use script_grammar::token::{FuncForm, mark};

/// An Expression in parentheses.
#[tactic(auto, unfolding(grammar_parser_specs::specs::Stmts::parens_of))]
pub fn parens<H: Handler>(
    state: &mut State<H>,
    source: &Source,
    depth: u32,
) -> Result<H::E, ParseFault>
    requires { IsSource source.now }
    ensures { (i : Interpretation) → Reads (NodeOf (H.shows_expr i))
        (pure.parens_of (env_at i depth)) source.now i state.old.place state.new.place result }
{
    state.place.expect(source, mark::OPEN_PAREN)?;
    let value = state.expr(source, true, depth)?;
    state.place.expect(source, mark::CLOSE_PAREN)?;
    Ok(value.node)
}

/// An expression statement.
#[tactic(auto, unfolding(grammar_parser_specs::specs::Stmts::value_stmt))]
pub fn value<H: Handler>(
    state: &mut State<H>,
    source: &Source,
    depth: u32,
) -> Result<StmtNode<H::S>, ParseFault>
    requires { IsSource source.now }
    ensures { (i : Interpretation) → Reads (StmtOf (H.shows_stmt i))
        (pure.value_stmt (env_at i depth)) source.now i state.old.place state.new.place result }
{
    let value = state.expr(source, true, depth)?;
    let semi = semi(&mut state.place, source, StmtEnding::Value(value.ending))?;
    let node = state.handler.make_value(value.node, semi)?;
    Ok(StmtNode {
        node,
        takes_else: false,
    })
}

/// The value of a `return`, where one stands on its line.
#[tactic(auto, unfolding(grammar_parser_specs::specs::Stmts::returned_of))]
fn returned<H: Handler>(
    state: &mut State<H>,
    source: &Source,
    depth: u32,
) -> Result<Option<Ranked<H::E>>, ParseFault>
    requires { IsSource source.now }
    ensures { (i : Interpretation) → Reads (ReturnedOf (H.shows_expr i))
        (pure.returned_of (env_at i depth)) source.now i state.old.place state.new.place result }
{
    if ends_return(&state.place, source) {
        return Ok(None);
    }
    let value = state.expr(source, true, depth)?;
    Ok(Some(value))
}

/// The node of a value that may be left out.
fn returned_node<E>(value: Option<Ranked<E>>) -> Option<E>
    ensures { result ≡ option_map (λ v. v.node) value }
{
    match value {
        None => None,
        Some(value) => Some(value.node),
    }
}

/// How a `return` with this value ends.
fn return_ending<E>(value: &Option<Ranked<E>>) -> StmtEnding
    ensures { result ≡ returned_ending value.now }
{
    match value {
        None => StmtEnding::Keyword,
        Some(value) => StmtEnding::Value(value.ending),
    }
}

/// `return`, after the word.
#[tactic(auto, unfolding(grammar_parser_specs::specs::Stmts::return_of))]
pub fn return_from<H: Handler>(
    state: &mut State<H>,
    source: &Source,
    depth: u32,
) -> Result<StmtNode<H::S>, ParseFault>
    requires { IsSource source.now }
    ensures { (i : Interpretation) → Reads (StmtOf (H.shows_stmt i))
        (pure.return_of (env_at i depth)) source.now i state.old.place state.new.place result }
{
    let value = returned(state, source, depth)?;
    let ending = return_ending(&value);
    let semi = semi(&mut state.place, source, ending)?;
    let node = state.handler.make_return(returned_node(value), semi)?;
    Ok(StmtNode {
        node,
        takes_else: false,
    })
}

/// The Expression of a `throw`, which must stand on its line.
#[tactic(auto, unfolding(grammar_parser_specs::specs::Stmts::thrown_of))]
fn thrown<H: Handler>(
    state: &mut State<H>,
    source: &Source,
    depth: u32,
) -> Result<Ranked<H::E>, ParseFault>
    requires { IsSource source.now }
    ensures { (i : Interpretation) → Reads (RankedOf (H.shows_expr i))
        (pure.thrown_of (env_at i depth)) source.now i state.old.place state.new.place result }
{
    if after_line(&state.place, source) {
        return Err(ParseFault::Unexpected {
            token: state.place.at,
        });
    }
    state.expr(source, true, depth)
}

/// `throw`, after the word.
#[tactic(auto, unfolding(grammar_parser_specs::specs::Stmts::throw_of))]
pub fn throw_from<H: Handler>(
    state: &mut State<H>,
    source: &Source,
    depth: u32,
) -> Result<StmtNode<H::S>, ParseFault>
    requires { IsSource source.now }
    ensures { (i : Interpretation) → Reads (StmtOf (H.shows_stmt i))
        (pure.throw_of (env_at i depth)) source.now i state.old.place state.new.place result }
{
    let value = thrown(state, source, depth)?;
    let semi = semi(&mut state.place, source, StmtEnding::Value(value.ending))?;
    let node = state.handler.make_throw(value.node, semi)?;
    Ok(StmtNode {
        node,
        takes_else: false,
    })
}

/// A function declaration, after the word `function`.
#[tactic(auto, unfolding(grammar_parser_specs::specs::Stmts::declared_of))]
pub fn declared<H: Handler>(
    state: &mut State<H>,
    source: &Source,
    depth: u32,
) -> Result<StmtNode<H::S>, ParseFault>
    requires { IsSource source.now }
    ensures { (i : Interpretation) → Reads (StmtOf (H.shows_stmt i))
        (pure.declared_of (env_at i depth)) source.now i state.old.place state.new.place result }
{
    let name = state.place.name(source)?;
    let func = state.function(source, FuncForm::Function, Some(name), depth)?;
    let node = state.handler.make_declared(func)?;
    Ok(StmtNode {
        node,
        takes_else: false,
    })
}

/// An Expression, or none where this mark stands.
#[tactic(auto, unfolding(grammar_parser_specs::specs::Stmts::option_of))]
pub fn option<H: Handler>(
    state: &mut State<H>,
    source: &Source,
    mark: u8,
    depth: u32,
) -> Result<Option<H::E>, ParseFault>
    requires { IsSource source.now }
    ensures { (i : Interpretation) → Reads (MaybeOf (H.shows_expr i))
        (pure.option_of (env_at i depth) mark) source.now i state.old.place state.new.place result }
{
    if state.place.is_mark(source, mark) {
        return Ok(None);
    }
    let value = state.expr(source, true, depth)?;
    Ok(Some(value.node))
}
