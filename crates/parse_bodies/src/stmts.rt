//! Statements that hold statements.

ghost use Rattle.std.specs.Prelude.{◌≡◌, Option};
ghost use Rattle.script_grammar.specs.Interpretation.{Interpretation};
ghost use Rattle.script_grammar.specs.Proper.{takes_else};
ghost use Rattle.script_grammar.specs.Shows.{NodeOf};
ghost use Rattle.script_grammar.specs.Tree as model;
ghost use Rattle.script_grammar.specs.TreeLists as list;
ghost use Rattle.grammar_parser_specs.specs.Parser.{loop};
ghost use Rattle.grammar_parser_specs.specs.Stmts as pure;
ghost use Rattle.parse_exprs.specs.Answers.{Reads, Makes};
ghost use Rattle.parse_exprs.specs.Means.{Itself, TurnOf, ItemsOf};
ghost use Rattle.parse_exprs.specs.Source.{IsSource};
ghost use Rattle.parse_bodies.specs.Blocks.{stmts_at, block_at};
ghost use Rattle.parse_bodies.specs.Means.{StmtOf, MaybeStmtOf, ShowMaybeStmt, StmtsOf, ListOf, place_of};

use crate::bindings::binding;
use crate::kinds::{begins_stmt, ends_items};
use crate::loops::{do_from, for_stmt, while_from};
use crate::part::StmtNode;
use crate::pieces::{catch_param, expect_word, is_label};
use crate::position::Position;
use crate::switch::switch_from;
use crate::values::{declared, parens, return_from, throw_from, value};
use crate::words::{break_from, continue_from, debugger, empty, label};
use parse_exprs::part::{Items, Turned};
use parse_exprs::place::{DEPTH_LIMIT, ParseFault};
use parse_exprs::source::Source;
use parse_exprs::state::State;
use script_grammar::handler::Handler;
use script_grammar::token::{Decl, mark, word};

/// A statement of a list, where the list goes on here.
#[cycle(stmts)]
#[tactic(auto, unfolding(grammar_parser_specs::specs::Stmts::stmt_turn))]
fn stmt_turn<H: Handler>(
    state: &mut State<H>,
    source: &Source,
    returns: bool,
    depth: u32,
) -> Result<Turned<H::S, ()>, ParseFault>
    requires { IsSource source.now }
    ensures { (i : Interpretation) → Reads (TurnOf (NodeOf (H.shows_stmt i)) Itself)
        (pure.stmt_turn (stmts_at i depth) returns) source.now i state.old.place state.new.place result }
{
    if ends_items(state.place.kind(source)) {
        return Ok(Turned::Last(()));
    }
    let item = stmt(state, source, Position::Item { returns }, depth)?;
    Ok(Turned::Next(item.node))
}

/// The statements of a list.
#[cycle(stmts)]
fn items<H: Handler>(
    state: &mut State<H>,
    source: &Source,
    returns: bool,
    depth: u32,
) -> Result<Items<H::S, ()>, ParseFault>
    requires { IsSource source.now }
    ensures { (i : Interpretation) → Reads (ItemsOf (H.shows_stmt i) Itself)
        (loop (pure.stmt_turn (stmts_at i depth) returns)) source.now i state.old.place state.new.place result }
{
    let mut items = Vec::new(state.alloc);
    loop {
        match stmt_turn(state, source, returns, depth)? {
            Turned::Next(item) => items.push(item)?,
            Turned::Last(last) => return Ok(Items { items, last }),
        }
    }
}

/// A list of statements.
#[cycle(stmts)]
#[tactic(auto, unfolding(grammar_parser_specs::specs::Stmts::stmts_from))]
pub fn stmts_from<H: Handler>(
    state: &mut State<H>,
    source: &Source,
    returns: bool,
    depth: u32,
) -> Result<Vec<H::S>, ParseFault>
    requires { IsSource source.now }
    ensures { (i : Interpretation) → Reads (ListOf (H.shows_stmt i))
        (pure.stmts_from (stmts_at i depth) returns) source.now i state.old.place state.new.place result }
{
    let stmts = items(state, source, returns, depth)?;
    Ok(stmts.items)
}

/// Statements in braces, after the first brace.
#[cycle(stmts)]
#[tactic(auto, unfolding(grammar_parser_specs::specs::Stmts::braced_from))]
fn braced_from<H: Handler>(
    state: &mut State<H>,
    source: &Source,
    returns: bool,
    depth: u32,
) -> Result<Vec<H::S>, ParseFault>
    requires { IsSource source.now }
    ensures { (i : Interpretation) → Reads (StmtsOf (H.shows_stmt i))
        (pure.braced_from (stmts_at i depth) returns) source.now i state.old.place state.new.place result }
{
    let stmts = stmts_from(state, source, returns, depth)?;
    state.place.expect(source, mark::CLOSE_BRACE)?;
    Ok(stmts)
}

/// Statements in braces.
#[cycle(stmts)]
#[tactic(auto, unfolding(grammar_parser_specs::specs::Stmts::braced_of))]
fn braced<H: Handler>(
    state: &mut State<H>,
    source: &Source,
    returns: bool,
    depth: u32,
) -> Result<Vec<H::S>, ParseFault>
    requires { IsSource source.now }
    ensures { (i : Interpretation) → Reads (StmtsOf (H.shows_stmt i))
        (pure.braced_of (stmts_at i depth) returns) source.now i state.old.place state.new.place result }
{
    state.place.expect(source, mark::OPEN_BRACE)?;
    let stmts = braced_from(state, source, returns, depth)?;
    Ok(stmts)
}

/// A block, after its brace.
#[cycle(stmts)]
#[tactic(auto, unfolding(grammar_parser_specs::specs::Stmts::block_stmt))]
fn block_stmt<H: Handler>(
    state: &mut State<H>,
    source: &Source,
    returns: bool,
    depth: u32,
) -> Result<StmtNode<H::S>, ParseFault>
    requires { IsSource source.now }
    ensures { (i : Interpretation) → Reads (StmtOf (H.shows_stmt i))
        (pure.block_stmt (block_at i depth) returns) source.now i state.old.place state.new.place result }
{
    let items = braced_from(state, source, returns, depth)?;
    let node = state.handler.make_block(items)?;
    Ok(StmtNode {
        node,
        takes_else: false,
    })
}

/// An `else` and its statement, where one stands here.
#[cycle(stmts)]
#[tactic(auto, unfolding(grammar_parser_specs::specs::Stmts::else_of))]
fn else_part<H: Handler>(
    state: &mut State<H>,
    source: &Source,
    returns: bool,
    depth: u32,
) -> Result<Option<StmtNode<H::S>>, ParseFault>
    requires { IsSource source.now }
    ensures { (i : Interpretation) → Reads (MaybeStmtOf (H.shows_stmt i))
        (pure.else_of (block_at i depth) returns) source.now i state.old.place state.new.place result }
{
    if !state.place.is_word(source, word::ELSE) {
        return Ok(None);
    }
    state.place.step(source);
    let no = stmt(state, source, Position::Alone { returns }, depth)?;
    Ok(Some(no))
}

/// The same after a statement that may take the `else` itself.
#[cycle(stmts)]
fn else_behind<H: Handler>(
    state: &mut State<H>,
    source: &Source,
    takes: bool,
    returns: bool,
    depth: u32,
) -> Result<Option<StmtNode<H::S>>, ParseFault>
    requires { IsSource source.now }
    ensures { (i : Interpretation) (s : model.Stmt) → takes ≡ takes_else s
        → Reads (MaybeStmtOf (H.shows_stmt i)) (pure.else_behind (block_at i depth) returns s) source.now i state.old.place state.new.place result }
{
    if takes {
        return Ok(None);
    }
    else_part(state, source, returns, depth)
}

/// The node of an `if`.
fn make_if<H: Handler>(
    state: &mut State<H>,
    test: H::E,
    yes: H::S,
    no: Option<StmtNode<H::S>>,
) -> Result<StmtNode<H::S>, ParseFault>
    ensures place { state.new.place ≡ state.old.place }
    ensures makes { (i : Interpretation) (t : model.Expr) (s : model.Stmt) (o : Option model.Stmt) → H.shows_expr i test t
        → H.shows_stmt i yes s → ShowMaybeStmt (H.shows_stmt i) no o
        → Makes result (λ v. H.shows_stmt i v.node (model.If t s (list.maybe_stmt_of o))
        × (v.takes_else ≡ takes_else (model.If t s (list.maybe_stmt_of o)))) }
{
    match no {
        None => {
            let node = state.handler.make_if(test, yes, None)?;
            Ok(StmtNode {
                node,
                takes_else: true,
            })
        }
        Some(no) => {
            let takes_else = no.takes_else;
            let node = state.handler.make_if(test, yes, Some(no.node))?;
            Ok(StmtNode { node, takes_else })
        }
    }
}

/// `if`, after its word. An `else` belongs to the nearest one.
#[cycle(stmts)]
#[tactic(auto, unfolding(grammar_parser_specs::specs::Stmts::if_of))]
fn if_from<H: Handler>(
    state: &mut State<H>,
    source: &Source,
    returns: bool,
    depth: u32,
) -> Result<StmtNode<H::S>, ParseFault>
    requires { IsSource source.now }
    ensures { (i : Interpretation) → Reads (StmtOf (H.shows_stmt i))
        (pure.if_of (block_at i depth) returns) source.now i state.old.place state.new.place result }
{
    let test = parens(state, source, depth)?;
    let yes = stmt(state, source, Position::Alone { returns }, depth)?;
    let no = else_behind(state, source, yes.takes_else, returns, depth)?;
    make_if(state, test, yes.node, no)
}

/// `try`, after its word.
#[cycle(stmts)]
#[tactic(auto, unfolding(grammar_parser_specs::specs::Stmts::try_of))]
fn try_from<H: Handler>(
    state: &mut State<H>,
    source: &Source,
    returns: bool,
    depth: u32,
) -> Result<StmtNode<H::S>, ParseFault>
    requires { IsSource source.now }
    ensures { (i : Interpretation) → Reads (StmtOf (H.shows_stmt i))
        (pure.try_of (block_at i depth) returns) source.now i state.old.place state.new.place result }
{
    let body = braced(state, source, returns, depth)?;
    expect_word(&mut state.place, source, word::CATCH)?;
    let param = catch_param(&mut state.place, source)?;
    let handler = braced(state, source, returns, depth)?;
    let node = state.handler.make_try(body, param, handler)?;
    Ok(StmtNode {
        node,
        takes_else: false,
    })
}

/// A label and its statement.
#[cycle(stmts)]
#[tactic(auto, unfolding(grammar_parser_specs::specs::Stmts::labelled_of))]
fn labelled<H: Handler>(
    state: &mut State<H>,
    source: &Source,
    returns: bool,
    depth: u32,
) -> Result<StmtNode<H::S>, ParseFault>
    requires { IsSource source.now }
    ensures { (i : Interpretation) → Reads (StmtOf (H.shows_stmt i))
        (pure.labelled_of (block_at i depth) returns) source.now i state.old.place state.new.place result }
{
    let name = label(state, source, depth)?;
    state.place.expect(source, mark::COLON)?;
    let body = stmt(state, source, Position::Alone { returns }, depth)?;
    let takes_else = body.takes_else;
    let node = state.handler.make_label(name, body.node)?;
    Ok(StmtNode { node, takes_else })
}

/// A statement that begins with no word of a statement.
#[cycle(stmts)]
#[tactic(auto, unfolding(grammar_parser_specs::specs::Stmts::plain_stmt))]
fn plain_stmt<H: Handler>(
    state: &mut State<H>,
    source: &Source,
    returns: bool,
    depth: u32,
) -> Result<StmtNode<H::S>, ParseFault>
    requires { IsSource source.now }
    ensures { (i : Interpretation) → Reads (StmtOf (H.shows_stmt i))
        (pure.plain_stmt (block_at i depth) returns) source.now i state.old.place state.new.place result }
{
    if is_label(&state.place, source) {
        return labelled(state, source, returns, depth);
    }
    if state.place.is_word(source, word::FUNCTION)
        || state.place.is_mark(source, mark::OPEN_BRACE)
    {
        return Err(ParseFault::Unexpected {
            token: state.place.at,
        });
    }
    value(state, source, depth)
}

/// A jump, or a statement that begins with no word of a statement.
#[cycle(stmts)]
#[tactic(auto, unfolding(grammar_parser_specs::specs::Stmts::jump_stmt))]
fn jump_stmt<H: Handler>(
    state: &mut State<H>,
    source: &Source,
    position: Position,
    depth: u32,
) -> Result<StmtNode<H::S>, ParseFault>
    requires { IsSource source.now }
    ensures { (i : Interpretation) → Reads (StmtOf (H.shows_stmt i))
        (pure.jump_stmt (block_at i depth) (place_of position)) source.now i state.old.place state.new.place result }
{
    let at = state.place.token(source).start;
    if state.place.is_word(source, word::CONTINUE) {
        state.place.step(source);
        return continue_from(state, source, at);
    }
    if state.place.is_word(source, word::BREAK) {
        state.place.step(source);
        return break_from(state, source, at);
    }
    if state.place.is_word(source, word::RETURN) && position.returns() {
        state.place.step(source);
        return return_from(state, source, depth);
    }
    if state.place.is_word(source, word::THROW) {
        state.place.step(source);
        return throw_from(state, source, depth);
    }
    plain_stmt(state, source, position.returns(), depth)
}

/// A declaration, or what `nested_stmt` reads.
#[cycle(stmts)]
#[tactic(auto, unfolding(grammar_parser_specs::specs::Stmts::declaration_stmt))]
fn declaration_stmt<H: Handler>(
    state: &mut State<H>,
    source: &Source,
    position: Position,
    depth: u32,
) -> Result<StmtNode<H::S>, ParseFault>
    requires { IsSource source.now }
    ensures { (i : Interpretation) → Reads (StmtOf (H.shows_stmt i))
        (pure.declaration_stmt (block_at i depth) (place_of position)) source.now i state.old.place state.new.place result }
{
    if state.place.is_word(source, word::VAR) {
        state.place.step(source);
        return binding(state, source, Decl::Var, depth);
    }
    if state.place.is_word(source, word::LET) && position.is_item() {
        state.place.step(source);
        return binding(state, source, Decl::Let, depth);
    }
    if state.place.is_word(source, word::CONST) && position.is_item() {
        state.place.step(source);
        return binding(state, source, Decl::Const, depth);
    }
    if state.place.is_word(source, word::FUNCTION) && position.is_item() {
        state.place.step(source);
        return declared(state, source, depth);
    }
    nested_stmt(state, source, position, depth)
}

/// A statement that holds statements, or what `jump_stmt` reads.
#[cycle(stmts)]
#[tactic(auto, unfolding(grammar_parser_specs::specs::Stmts::nested_stmt))]
fn nested_stmt<H: Handler>(
    state: &mut State<H>,
    source: &Source,
    position: Position,
    depth: u32,
) -> Result<StmtNode<H::S>, ParseFault>
    requires { IsSource source.now }
    ensures { (i : Interpretation) → Reads (StmtOf (H.shows_stmt i))
        (pure.nested_stmt (block_at i depth) (place_of position)) source.now i state.old.place state.new.place result }
{
    if state.place.is_word(source, word::IF) {
        state.place.step(source);
        return if_from(state, source, position.returns(), depth);
    }
    if state.place.is_word(source, word::WHILE) {
        state.place.step(source);
        return while_from(state, source, position.returns(), depth);
    }
    if state.place.is_word(source, word::DO) {
        state.place.step(source);
        return do_from(state, source, position.returns(), depth);
    }
    if state.place.is_word(source, word::FOR) {
        state.place.step(source);
        return for_stmt(state, source, position.returns(), depth);
    }
    if state.place.is_word(source, word::SWITCH) {
        state.place.step(source);
        return switch_from(state, source, position.returns(), depth);
    }
    if state.place.is_word(source, word::TRY) {
        state.place.step(source);
        return try_from(state, source, position.returns(), depth);
    }
    jump_stmt(state, source, position, depth)
}

/// A statement, with room for depth.
#[cycle(stmts)]
#[tactic(auto, unfolding(grammar_parser_specs::specs::Stmts::stmt_of))]
fn stmt_in<H: Handler>(
    state: &mut State<H>,
    source: &Source,
    position: Position,
    depth: u32,
) -> Result<StmtNode<H::S>, ParseFault>
    requires { IsSource source.now }
    ensures { (i : Interpretation) → Reads (StmtOf (H.shows_stmt i))
        (pure.stmt_of (block_at i depth) (place_of position)) source.now i state.old.place state.new.place result }
{
    if state.place.is_mark(source, mark::OPEN_BRACE) {
        state.place.step(source);
        return block_stmt(state, source, position.returns(), depth);
    }
    if state.place.is_mark(source, mark::SEMICOLON) {
        state.place.step(source);
        return empty(state);
    }
    if state.place.is_word(source, word::DEBUGGER) {
        state.place.step(source);
        return debugger(state, source);
    }
    declaration_stmt(state, source, position, depth)
}

/// A statement.
#[cycle(stmts)]
pub fn stmt<H: Handler>(
    state: &mut State<H>,
    source: &Source,
    position: Position,
    depth: u32,
) -> Result<StmtNode<H::S>, ParseFault>
    requires { IsSource source.now }
    ensures { (i : Interpretation) → Reads (StmtOf (H.shows_stmt i))
        (stmts_at i depth (place_of position)) source.now i state.old.place state.new.place result }
{
    if depth >= DEPTH_LIMIT {
        let begins = begins_stmt(position, state.place.kind(source));
        return Err(state.place.no_room(begins));
    }
    stmt_in(state, source, position, depth + 1)
}
