//! Loops.

ghost use Rattle.std.specs.Prelude.{◌≡◌, ◌&&◌, nat_le, false};
ghost use Rattle.script_grammar.specs.Interpretation.{Interpretation, named};
ghost use Rattle.script_grammar.specs.Proper.{rank, left_rank};
ghost use Rattle.script_grammar.specs.Shows.{ShowInit, ShowEach};
ghost use Rattle.script_grammar.specs.Tree as model;
ghost use Rattle.script_grammar.specs.Kinds as test;
ghost use Rattle.script_grammar.specs.declared.token.word.TheConstants as word;
ghost use Rattle.grammar_parser_specs.specs.Parser.{head_of, bind};
ghost use Rattle.grammar_parser_specs.specs.Exprs.{expr_of};
ghost use Rattle.grammar_parser_specs.specs.Stmts as pure;
ghost use Rattle.parse_exprs.specs.Answers.{Reads};
ghost use Rattle.parse_exprs.specs.Env.{env_at};
ghost use Rattle.parse_exprs.specs.Ranks.{rank_of};
ghost use Rattle.parse_exprs.specs.Source.{IsSource, front};
ghost use Rattle.parse_bodies.specs.Blocks.{block_at};
ghost use Rattle.parse_bodies.specs.Means.{StmtOf};

use crate::bindings::binds_from;
use crate::ending::StmtEnding;
use crate::part::StmtNode;
use crate::pieces::{expect_word, semi};
use crate::position::Position;
use crate::stmts::stmt;
use crate::values::{option, parens};
use parse_exprs::part::{Rank, Ranked};
use parse_exprs::place::{Cursor, ParseFault};
use parse_exprs::source::Source;
use parse_exprs::state::State;
use script_grammar::handler::Handler;
use script_grammar::node::{NodeEach, NodeInit};
use script_grammar::token::{Decl, mark, word};
use script_grammar::tree::Ident;

/// `while`, after its word.
#[cycle(stmts)]
#[tactic(auto, unfolding(grammar_parser_specs::specs::Stmts::while_of))]
pub fn while_from<H: Handler>(
    state: &mut State<H>,
    source: &Source,
    returns: bool,
    depth: u32,
) -> Result<StmtNode<H::S>, ParseFault>
    requires { IsSource source.now }
    ensures { (i : Interpretation) → Reads (StmtOf (H.shows_stmt i))
        (pure.while_of (block_at i depth) returns) source.now i state.old.place state.new.place result }
{
    let test = parens(state, source, depth)?;
    let body = stmt(state, source, Position::Alone { returns }, depth)?;
    let takes_else = body.takes_else;
    let node = state.handler.make_while(test, body.node)?;
    Ok(StmtNode { node, takes_else })
}

/// `do`, after its word.
#[cycle(stmts)]
#[tactic(auto, unfolding(grammar_parser_specs::specs::Stmts::do_of))]
pub fn do_from<H: Handler>(
    state: &mut State<H>,
    source: &Source,
    returns: bool,
    depth: u32,
) -> Result<StmtNode<H::S>, ParseFault>
    requires { IsSource source.now }
    ensures { (i : Interpretation) → Reads (StmtOf (H.shows_stmt i))
        (pure.do_of (block_at i depth) returns) source.now i state.old.place state.new.place result }
{
    let body = stmt(state, source, Position::Alone { returns }, depth)?;
    expect_word(&mut state.place, source, word::WHILE)?;
    let test = parens(state, source, depth)?;
    let semi = semi(&mut state.place, source, StmtEnding::DoWhile)?;
    let node = state.handler.make_do(body.node, test, semi)?;
    Ok(StmtNode {
        node,
        takes_else: false,
    })
}

/// A `for` with two semicolons, after what begins its head.
#[cycle(stmts)]
#[tactic(auto, unfolding(grammar_parser_specs::specs::Stmts::for_from))]
fn for_from<H: Handler>(
    state: &mut State<H>,
    source: &Source,
    returns: bool,
    init: NodeInit<H::E>,
    depth: u32,
) -> Result<StmtNode<H::S>, ParseFault>
    requires { IsSource source.now }
    ensures { (i : Interpretation) (n : model.Init) → ShowInit i (H.shows_expr i) init n
        → Reads (StmtOf (H.shows_stmt i)) (pure.for_from (block_at i depth) returns n) source.now i state.old.place state.new.place result }
{
    state.place.expect(source, mark::SEMICOLON)?;
    let test = option(state, source, mark::SEMICOLON, depth)?;
    state.place.expect(source, mark::SEMICOLON)?;
    let update = option(state, source, mark::CLOSE_PAREN, depth)?;
    state.place.expect(source, mark::CLOSE_PAREN)?;
    let body = stmt(state, source, Position::Alone { returns }, depth)?;
    let takes_else = body.takes_else;
    let node = state.handler.make_for(init, test, update, body.node)?;
    Ok(StmtNode { node, takes_else })
}

/// A for-in, after its `in`.
#[cycle(stmts)]
#[tactic(auto, unfolding(grammar_parser_specs::specs::Stmts::for_in_from))]
fn for_in_from<H: Handler>(
    state: &mut State<H>,
    source: &Source,
    returns: bool,
    each: NodeEach<H::E>,
    depth: u32,
) -> Result<StmtNode<H::S>, ParseFault>
    requires { IsSource source.now }
    ensures { (i : Interpretation) (n : model.Each) → ShowEach i (H.shows_expr i) each n
        → Reads (StmtOf (H.shows_stmt i)) (pure.for_in_from (block_at i depth) returns n) source.now i state.old.place state.new.place result }
{
    let over = state.expr(source, true, depth)?;
    state.place.expect(source, mark::CLOSE_PAREN)?;
    let body = stmt(state, source, Position::Alone { returns }, depth)?;
    let takes_else = body.takes_else;
    let node = state.handler.make_forin(each, over.node, body.node)?;
    Ok(StmtNode { node, takes_else })
}

/// A `for` whose head begins with a declaration, after its first name.
#[cycle(stmts)]
#[tactic(auto, unfolding(grammar_parser_specs::specs::Stmts::for_named))]
fn for_named<H: Handler>(
    state: &mut State<H>,
    source: &Source,
    returns: bool,
    decl: Decl,
    name: Ident,
    depth: u32,
) -> Result<StmtNode<H::S>, ParseFault>
    requires { IsSource source.now }
    ensures { (i : Interpretation) → Reads (StmtOf (H.shows_stmt i))
        (pure.for_named (block_at i depth) returns decl (named i name)) source.now i state.old.place state.new.place result }
{
    if state.place.is_word(source, word::IN) {
        state.place.step(source);
        return for_in_from(state, source, returns, NodeEach::Bind { decl, name }, depth);
    }
    let binds = binds_from(state, source, false, name, depth)?;
    let init = NodeInit::Binds {
        decl,
        binds: binds.items,
    };
    for_from(state, source, returns, init, depth)
}

/// A `for` whose head begins with a declaration, after its word.
#[cycle(stmts)]
#[tactic(auto, unfolding(grammar_parser_specs::specs::Stmts::for_decl))]
fn for_decl<H: Handler>(
    state: &mut State<H>,
    source: &Source,
    returns: bool,
    decl: Decl,
    depth: u32,
) -> Result<StmtNode<H::S>, ParseFault>
    requires { IsSource source.now }
    ensures { (i : Interpretation) → Reads (StmtOf (H.shows_stmt i))
        (pure.for_decl (block_at i depth) returns decl) source.now i state.old.place state.new.place result }
{
    let name = state.place.name(source)?;
    for_named(state, source, returns, decl, name, depth)
}

/// Whether what binds so may stand before the `in` of a for-in.
fn may_be_each(of: Rank) -> bool
    ensures { (t : model.Expr) → of ≡ rank_of t → result ≡ nat_le (rank t) left_rank }
{
    matches!(of, Rank::Head | Rank::Left)
}

/// Whether a for-in goes on here after an expression that binds so.
fn is_for_in(place: &Cursor, source: &Source, of: Rank) -> bool
    requires { IsSource source.now }
    ensures { (i : Interpretation) (t : model.Expr) → of ≡ rank_of t
        → result ≡ (test.is_word word.IN (head_of (front source.now i place.now.at)).kind && nat_le (rank t) left_rank) }
{
    let each = may_be_each(of);
    place.is_word(source, word::IN) && each
}

/// A `for` whose head begins with an Expression, after this.
#[cycle(stmts)]
#[tactic(auto, unfolding(grammar_parser_specs::specs::Stmts::for_valued))]
fn for_valued<H: Handler>(
    state: &mut State<H>,
    source: &Source,
    returns: bool,
    value: Ranked<H::E>,
    depth: u32,
) -> Result<StmtNode<H::S>, ParseFault>
    requires { IsSource source.now }
    ensures { (i : Interpretation) (t : model.Expr) → H.shows_expr i value.node t → value.rank ≡ rank_of t
        → Reads (StmtOf (H.shows_stmt i)) (pure.for_valued (block_at i depth) returns t) source.now i state.old.place state.new.place result }
{
    if is_for_in(&state.place, source, value.rank) {
        state.place.step(source);
        return for_in_from(state, source, returns, NodeEach::Target(value.node), depth);
    }
    for_from(state, source, returns, NodeInit::Value(value.node), depth)
}

/// A `for` whose head begins with an Expression.
#[cycle(stmts)]
fn for_expr<H: Handler>(
    state: &mut State<H>,
    source: &Source,
    returns: bool,
    depth: u32,
) -> Result<StmtNode<H::S>, ParseFault>
    requires { IsSource source.now }
    ensures { (i : Interpretation) → Reads (StmtOf (H.shows_stmt i))
        (bind (expr_of (env_at i depth) false) (pure.for_valued (block_at i depth) returns)) source.now i state.old.place state.new.place result }
{
    let value = state.expr(source, false, depth)?;
    for_valued(state, source, returns, value, depth)
}

/// What stands after the parenthesis of a `for`.
#[cycle(stmts)]
#[tactic(auto, unfolding(grammar_parser_specs::specs::Stmts::for_head))]
fn for_head<H: Handler>(
    state: &mut State<H>,
    source: &Source,
    returns: bool,
    depth: u32,
) -> Result<StmtNode<H::S>, ParseFault>
    requires { IsSource source.now }
    ensures { (i : Interpretation) → Reads (StmtOf (H.shows_stmt i))
        (pure.for_head (block_at i depth) returns) source.now i state.old.place state.new.place result }
{
    if state.place.is_mark(source, mark::SEMICOLON) {
        return for_from(state, source, returns, NodeInit::Nothing, depth);
    }
    if state.place.is_word(source, word::VAR) {
        state.place.step(source);
        return for_decl(state, source, returns, Decl::Var, depth);
    }
    if state.place.is_word(source, word::LET) {
        state.place.step(source);
        return for_decl(state, source, returns, Decl::Let, depth);
    }
    if state.place.is_word(source, word::CONST) {
        state.place.step(source);
        return for_decl(state, source, returns, Decl::Const, depth);
    }
    for_expr(state, source, returns, depth)
}

/// `for`, after its word.
#[cycle(stmts)]
#[tactic(auto, unfolding(grammar_parser_specs::specs::Stmts::for_of))]
pub fn for_stmt<H: Handler>(
    state: &mut State<H>,
    source: &Source,
    returns: bool,
    depth: u32,
) -> Result<StmtNode<H::S>, ParseFault>
    requires { IsSource source.now }
    ensures { (i : Interpretation) → Reads (StmtOf (H.shows_stmt i))
        (pure.for_of (block_at i depth) returns) source.now i state.old.place state.new.place result }
{
    state.place.expect(source, mark::OPEN_PAREN)?;
    for_head(state, source, returns, depth)
}
