//! `switch` and its clauses.

ghost use Rattle.std.specs.Prelude.{◌≡◌, ◌++◌, Option, Some};
ghost use Rattle.script_grammar.specs.Interpretation.{Interpretation};
ghost use Rattle.script_grammar.specs.Shows.{ShowMaybe, ShowClause, ClauseOf};
ghost use Rattle.script_grammar.specs.TreeLists as list;
ghost use Rattle.grammar_parser_specs.specs.Parser.{loop};
ghost use Rattle.grammar_parser_specs.specs.Stmts as pure;
ghost use Rattle.parse_exprs.specs.Answers.{Reads, Makes};
ghost use Rattle.parse_exprs.specs.Means.{Itself, TurnOf, ItemsOf};
ghost use Rattle.parse_exprs.specs.Source.{IsSource};
ghost use Rattle.parse_bodies.specs.Blocks.{block_at};
ghost use Rattle.parse_bodies.specs.Means.{StmtOf, ListOf, MaybeClauseOf};

use crate::part::StmtNode;
use crate::stmts::stmts_from;
use crate::values::parens;
use parse_exprs::part::{Items, Turned};
use parse_exprs::place::ParseFault;
use parse_exprs::source::Source;
use parse_exprs::state::State;
use script_grammar::handler::Handler;
use script_grammar::node::NodeClause;
use script_grammar::token::{mark, word};

/// A clause of a `switch`, after the word `case`.
#[cycle(stmts)]
#[tactic(auto, unfolding(grammar_parser_specs::specs::Stmts::case_of))]
fn case_clause<H: Handler>(
    state: &mut State<H>,
    source: &Source,
    returns: bool,
    depth: u32,
) -> Result<NodeClause<H::E, H::S>, ParseFault>
    requires { IsSource source.now }
    ensures { (i : Interpretation) → Reads (ClauseOf (H.shows_expr i) (H.shows_stmt i))
        (pure.case_of (block_at i depth) returns) source.now i state.old.place state.new.place result }
{
    let test = state.expr(source, true, depth)?;
    state.place.expect(source, mark::COLON)?;
    let items = stmts_from(state, source, returns, depth)?;
    Ok(NodeClause {
        test: Some(test.node),
        items,
    })
}

/// A clause of a `switch`, after the word `default`.
#[cycle(stmts)]
#[tactic(auto, unfolding(grammar_parser_specs::specs::Stmts::default_of))]
fn default_clause<H: Handler>(
    state: &mut State<H>,
    source: &Source,
    returns: bool,
    depth: u32,
) -> Result<NodeClause<H::E, H::S>, ParseFault>
    requires { IsSource source.now }
    ensures { (i : Interpretation) → Reads (ClauseOf (H.shows_expr i) (H.shows_stmt i))
        (pure.default_of (block_at i depth) returns) source.now i state.old.place state.new.place result }
{
    state.place.expect(source, mark::COLON)?;
    let items = stmts_from(state, source, returns, depth)?;
    Ok(NodeClause { test: None, items })
}

/// A clause after a default, where one stands here.
#[cycle(stmts)]
#[tactic(auto, unfolding(grammar_parser_specs::specs::Stmts::case_turn))]
fn case_turn<H: Handler>(
    state: &mut State<H>,
    source: &Source,
    returns: bool,
    depth: u32,
) -> Result<Turned<NodeClause<H::E, H::S>, ()>, ParseFault>
    requires { IsSource source.now }
    ensures { (i : Interpretation) → Reads (TurnOf (ClauseOf (H.shows_expr i) (H.shows_stmt i)) Itself)
        (pure.case_turn (block_at i depth) returns) source.now i state.old.place state.new.place result }
{
    if !state.place.is_word(source, word::CASE) {
        return Ok(Turned::Last(()));
    }
    state.place.step(source);
    let item = case_clause(state, source, returns, depth)?;
    Ok(Turned::Next(item))
}

/// The clauses after a default.
#[cycle(stmts)]
fn cases<H: Handler>(
    state: &mut State<H>,
    source: &Source,
    returns: bool,
    depth: u32,
) -> Result<Items<NodeClause<H::E, H::S>, ()>, ParseFault>
    requires { IsSource source.now }
    ensures { (i : Interpretation) → Reads (ItemsOf (ShowClause (H.shows_expr i) (H.shows_stmt i)) Itself)
        (loop (pure.case_turn (block_at i depth) returns)) source.now i state.old.place state.new.place result }
{
    let mut items = Vec::new(state.alloc);
    loop {
        match case_turn(state, source, returns, depth)? {
            Turned::Next(item) => items.push(item)?,
            Turned::Last(last) => return Ok(Items { items, last }),
        }
    }
}

/// A clause with a test; or the default, or none, which end the clauses up to a default.
#[cycle(stmts)]
#[tactic(auto, unfolding(grammar_parser_specs::specs::Stmts::clause_turn))]
fn clause_turn<H: Handler>(
    state: &mut State<H>,
    source: &Source,
    returns: bool,
    depth: u32,
) -> Result<Turned<NodeClause<H::E, H::S>, Option<NodeClause<H::E, H::S>>>, ParseFault>
    requires { IsSource source.now }
    ensures { (i : Interpretation) → Reads (TurnOf (ClauseOf (H.shows_expr i) (H.shows_stmt i))
        (MaybeClauseOf (H.shows_expr i) (H.shows_stmt i))) (pure.clause_turn
        (block_at i depth) returns) source.now i state.old.place state.new.place result }
{
    if state.place.is_word(source, word::CASE) {
        state.place.step(source);
        let item = case_clause(state, source, returns, depth)?;
        return Ok(Turned::Next(item));
    }
    if state.place.is_word(source, word::DEFAULT) {
        state.place.step(source);
        let last = default_clause(state, source, returns, depth)?;
        return Ok(Turned::Last(Some(last)));
    }
    Ok(Turned::Last(None))
}

/// The clauses up to a default, and the default.
#[cycle(stmts)]
fn clauses_to_default<H: Handler>(
    state: &mut State<H>,
    source: &Source,
    returns: bool,
    depth: u32,
) -> Result<Items<NodeClause<H::E, H::S>, Option<NodeClause<H::E, H::S>>>, ParseFault>
    requires { IsSource source.now }
    ensures { (i : Interpretation) → Reads (ItemsOf (ShowClause (H.shows_expr i) (H.shows_stmt i))
        (MaybeClauseOf (H.shows_expr i) (H.shows_stmt i))) (loop
        (pure.clause_turn (block_at i depth) returns)) source.now i state.old.place state.new.place result }
{
    let mut items = Vec::new(state.alloc);
    loop {
        match clause_turn(state, source, returns, depth)? {
            Turned::Next(item) => items.push(item)?,
            Turned::Last(last) => return Ok(Items { items, last }),
        }
    }
}

/// The items of the first list and, after them, those of the second.
fn joined<T: Drop>(mut front: Vec<T>, mut back: Vec<T>) -> Result<Vec<T>, ParseFault>
    ensures { Makes result (λ v. v.items ≡ front.items ++ back.items) }
{
    front.append(&mut back)?;
    Ok(front)
}

/// A default and the clauses after it.
#[cycle(stmts)]
#[tactic(auto, unfolding(grammar_parser_specs::specs::Stmts::more_clauses))]
fn behind_default<H: Handler>(
    state: &mut State<H>,
    source: &Source,
    returns: bool,
    default: NodeClause<H::E, H::S>,
    depth: u32,
) -> Result<Vec<NodeClause<H::E, H::S>>, ParseFault>
    requires { IsSource source.now }
    ensures { (i : Interpretation) (c : list.Clause) → ShowClause (H.shows_expr i) (H.shows_stmt i) default c
        → Reads (ListOf (ShowClause (H.shows_expr i) (H.shows_stmt i)))
        (pure.more_clauses (block_at i depth) returns (Some c)) source.now i state.old.place state.new.place result }
{
    let mut first = Vec::new(state.alloc);
    first.push(default)?;
    let cases = cases(state, source, returns, depth)?;
    joined(first, cases.items)
}

/// The default, if there is one, and the clauses after it.
#[cycle(stmts)]
#[tactic(auto, unfolding(grammar_parser_specs::specs::Stmts::more_clauses))]
fn more_clauses<H: Handler>(
    state: &mut State<H>,
    source: &Source,
    returns: bool,
    default: Option<NodeClause<H::E, H::S>>,
    depth: u32,
) -> Result<Vec<NodeClause<H::E, H::S>>, ParseFault>
    requires { IsSource source.now }
    ensures { (i : Interpretation) (o : Option list.Clause) → ShowMaybe (ShowClause (H.shows_expr i) (H.shows_stmt i)) default o
        → Reads (ListOf (ShowClause (H.shows_expr i) (H.shows_stmt i)))
        (pure.more_clauses (block_at i depth) returns o) source.now i state.old.place state.new.place result }
{
    match default {
        None => Ok(Vec::new(state.alloc)),
        Some(default) => behind_default(state, source, returns, default, depth),
    }
}

/// The clauses of a `switch`.
#[cycle(stmts)]
#[tactic(auto, unfolding(grammar_parser_specs::specs::Stmts::clauses_from))]
fn clauses_from<H: Handler>(
    state: &mut State<H>,
    source: &Source,
    returns: bool,
    depth: u32,
) -> Result<Vec<NodeClause<H::E, H::S>>, ParseFault>
    requires { IsSource source.now }
    ensures { (i : Interpretation) → Reads (ListOf (ShowClause (H.shows_expr i) (H.shows_stmt i)))
        (pure.clauses_from (block_at i depth) returns) source.now i state.old.place state.new.place result }
{
    let read = clauses_to_default(state, source, returns, depth)?;
    let more = more_clauses(state, source, returns, read.last, depth)?;
    joined(read.items, more)
}

/// `switch`, after its word.
#[cycle(stmts)]
#[tactic(auto, unfolding(grammar_parser_specs::specs::Stmts::switch_of))]
pub fn switch_from<H: Handler>(
    state: &mut State<H>,
    source: &Source,
    returns: bool,
    depth: u32,
) -> Result<StmtNode<H::S>, ParseFault>
    requires { IsSource source.now }
    ensures { (i : Interpretation) → Reads (StmtOf (H.shows_stmt i))
        (pure.switch_of (block_at i depth) returns) source.now i state.old.place state.new.place result }
{
    let of = parens(state, source, depth)?;
    state.place.expect(source, mark::OPEN_BRACE)?;
    let clauses = clauses_from(state, source, returns, depth)?;
    state.place.expect(source, mark::CLOSE_BRACE)?;
    let node = state.handler.make_switch(of, clauses)?;
    Ok(StmtNode {
        node,
        takes_else: false,
    })
}
