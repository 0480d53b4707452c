//! The scopes of the statements of a function or script, in source order.

ghost use Rattle.std.specs.Prelude.{◌≡◌, ℕ, ◌+◌, false, map, option_map, length, OnOk, IfOk};
ghost use Rattle.script_grammar.specs.Interpretation.{maybe_named};
ghost use Rattle.script_grammar.specs.Tree.{Stmts};
ghost use Rattle.script_grammar.specs.TreeLists.{stmts_of, maybe_stmt_of, clauses_of};
ghost use Rattle.script_grammar.specs.TreeOf.{stmt_of, clause_of, init_of, each_of};
ghost use Rattle.stencil_data.specs.Resolve.{is_global};
ghost use Rattle.stencil_data.specs.declared.scopes.ScopeKind.TheVariants as scope_kind;
ghost use Rattle.scope_analysis.specs.DeclaredNames.{lexical_names, clauses_lexical_names, init_lexical_names, each_lexical_names};
ghost use Rattle.scope_analysis.specs.Kept.{declarations_of, under};
ghost use Rattle.scope_analysis.specs.Scopes as defined;
ghost use Rattle.scope_analysis.specs.Scopes.{scope_count, catch_names, block_inner, count_stmt, count_stmts, count_else, count_clauses};
ghost use Rattle.scope_analysis.specs.Scopes.{scopes_stmt, scopes_stmts, scopes_else, scopes_clauses, scope_around};
ghost use Rattle.scope_analysis.specs.Uses.{uses_clauses};
ghost use Rattle.scope_analysis.specs.Walked.{Scoped, Opens, OpensAny};

use crate::names::{
    DeclaredName, push_catch_name, push_clauses_lexical_names, push_each_lexical_names,
    push_init_lexical_names, push_lexical_names,
};
use crate::place::{Placed, ScopeContext, narrow, place};
use script_grammar::tree::{
    Clause, Each, ForInStatement, ForStatement, Ident, IfStatement, Init, Stmt, TryStatement,
};
use std::alloc::AllocError;
use stencil_data::{ScopeData, ScopeKind};

/// The scopes of a function so far, and how many of its closed names have found their binding.
#[derive(Drop)]
pub struct Scoping {
    pub scopes: Vec<ScopeData>,
    pub closed: usize,
}

/// What is around a part of a tree in its function: the number of the innermost scope, and the first free frame slot.
#[derive(Clone, Copy)]
pub struct ScopePosition {
    pub parent: Option<u32>,
    pub frame: u32,
}

/// Adds a scope of these names.
pub fn push_scope(
    known: &ScopeContext,
    made: &mut Scoping,
    kind: ScopeKind,
    names: &[DeclaredName],
    around: ScopePosition,
) -> Result<ScopePosition, AllocError>
    requires { is_global kind ≡ false }
    ensures { IfOk result
        (λ inside. Opens known.now.texts.now known.now.closed.now made.old.scopes.items made.old.closed made.new.scopes.items
        made.new.closed kind (declarations_of known.now.texts.now names.now) around inside) }
{
    let number = made.scopes.len();
    let Placed {
        bindings,
        next,
        closed,
    } = place(known, number, around.frame, made.closed, names)?;
    made.scopes.push(ScopeData {
        kind,
        parent: around.parent,
        bindings,
        env_slots: narrow(next.env),
    })?;
    made.closed = closed;
    Ok(ScopePosition {
        parent: Some(narrow(number)),
        frame: narrow(next.frame),
    })
}

/// Adds a scope of these names, where there are any.
pub fn open_scope(
    known: &ScopeContext,
    made: &mut Scoping,
    kind: ScopeKind,
    names: &[DeclaredName],
    around: ScopePosition,
) -> Result<ScopePosition, AllocError>
    requires { is_global kind ≡ false }
    ensures { IfOk result
        (λ inside. OpensAny known.now.texts.now known.now.closed.now made.old.scopes.items made.old.closed made.new.scopes.items
        made.new.closed kind (declarations_of known.now.texts.now names.now) around inside) }
{
    if names.is_empty() {
        return Ok(around);
    }
    let inside = push_scope(known, made, kind, names, around)?;
    Ok(inside)
}

// Adds the scope of a block, where it declares names.
fn open_block(
    known: &ScopeContext,
    made: &mut Scoping,
    items: &[Stmt],
    around: ScopePosition,
) -> Result<ScopePosition, AllocError>
    ensures { IfOk result (λ inside. (bodies : ℕ → Stmts)
        → OpensAny known.now.texts.now known.now.closed.now made.old.scopes.items made.old.closed made.new.scopes.items made.new.closed
        scope_kind.Lexical (lexical_names (stmts_of (map (stmt_of (under known.now.texts.now bodies)) items.now))) around inside) }
{
    let mut names = Vec::new(known.alloc);
    push_lexical_names(items, &mut names)?;
    let inside = open_scope(known, made, ScopeKind::Lexical, &names, around)?;
    Ok(inside)
}

// Adds the scope of the clauses of a `switch`, where they declare names.
fn open_switch(
    known: &ScopeContext,
    made: &mut Scoping,
    clauses: &[Clause],
    around: ScopePosition,
) -> Result<ScopePosition, AllocError>
    ensures { IfOk result (λ inside. (bodies : ℕ → Stmts)
        → OpensAny known.now.texts.now known.now.closed.now made.old.scopes.items made.old.closed made.new.scopes.items made.new.closed
        scope_kind.Lexical (clauses_lexical_names (clauses_of (map (clause_of (under known.now.texts.now bodies)) clauses.now))) around inside) }
{
    let mut names = Vec::new(known.alloc);
    push_clauses_lexical_names(clauses, &mut names)?;
    let inside = open_scope(known, made, ScopeKind::Lexical, &names, around)?;
    Ok(inside)
}

// Adds the scope of the head of a `for`, where it declares names.
fn open_init(
    known: &ScopeContext,
    made: &mut Scoping,
    init: &Init,
    around: ScopePosition,
) -> Result<ScopePosition, AllocError>
    ensures { IfOk result (λ inside. (bodies : ℕ → Stmts)
        → OpensAny known.now.texts.now known.now.closed.now made.old.scopes.items made.old.closed made.new.scopes.items made.new.closed
        scope_kind.Lexical (init_lexical_names (init_of (under known.now.texts.now bodies) init.now)) around inside) }
{
    let mut names = Vec::new(known.alloc);
    push_init_lexical_names(init, &mut names)?;
    let inside = open_scope(known, made, ScopeKind::Lexical, &names, around)?;
    Ok(inside)
}

// Adds the scope of the head of a `for` with `in`, where it declares a name.
fn open_each(
    known: &ScopeContext,
    made: &mut Scoping,
    each: &Each,
    around: ScopePosition,
) -> Result<ScopePosition, AllocError>
    ensures { IfOk result (λ inside. (bodies : ℕ → Stmts)
        → OpensAny known.now.texts.now known.now.closed.now made.old.scopes.items made.old.closed made.new.scopes.items made.new.closed
        scope_kind.Lexical (each_lexical_names (each_of (under known.now.texts.now bodies) each.now)) around inside) }
{
    let mut names = Vec::new(known.alloc);
    push_each_lexical_names(each, &mut names)?;
    let inside = open_scope(known, made, ScopeKind::Lexical, &names, around)?;
    Ok(inside)
}

// Adds the scope of a catch clause, where it has a parameter.
fn open_catch(
    known: &ScopeContext,
    made: &mut Scoping,
    param: Option<Ident>,
    around: ScopePosition,
) -> Result<ScopePosition, AllocError>
    ensures { IfOk result (λ inside. (bodies : ℕ → Stmts)
        → OpensAny known.now.texts.now known.now.closed.now made.old.scopes.items made.old.closed made.new.scopes.items made.new.closed
        scope_kind.SimpleCatch (catch_names (maybe_named (under known.now.texts.now bodies) param)) around inside) }
{
    let mut names = Vec::new(known.alloc);
    push_catch_name(param, &mut names)?;
    let inside = open_scope(known, made, ScopeKind::SimpleCatch, &names, around)?;
    Ok(inside)
}

/// Adds the scopes of a statement.
#[cycle(scoping)]
fn add_stmt(
    known: &ScopeContext,
    made: &mut Scoping,
    stmt: &Stmt,
    around: ScopePosition,
) -> Result<(), AllocError>
    ensures { OnOk result ((bodies : ℕ → Stmts)
        → Scoped known.now.texts.now known.now.closed.now around made.old.scopes.items made.old.closed made.new.scopes.items
        made.new.closed (count_stmt (stmt_of (under known.now.texts.now bodies) stmt.now))
        (scopes_stmt (stmt_of (under known.now.texts.now bodies) stmt.now))) }
{
    match stmt {
        Stmt::Block(items) => Ok(add_block(known, made, items, around)?),
        Stmt::If(boxed) => {
            let statement: &IfStatement = boxed;
            add_stmt(known, made, &statement.yes, around)?;
            add_else(known, made, &statement.no, around)?;
            Ok(())
        }
        Stmt::Do { body, .. } => Ok(add_stmt(known, made, body, around)?),
        Stmt::While { body, .. } => Ok(add_stmt(known, made, body, around)?),
        Stmt::For(boxed) => {
            let statement: &ForStatement = boxed;
            let inside = open_init(known, made, &statement.init, around)?;
            add_stmt(known, made, &statement.body, inside)?;
            Ok(())
        }
        Stmt::ForIn(boxed) => {
            let statement: &ForInStatement = boxed;
            let inside = open_each(known, made, &statement.each, around)?;
            add_stmt(known, made, &statement.body, inside)?;
            Ok(())
        }
        Stmt::Switch(boxed) => Ok(add_switch(known, made, &boxed.clauses, around)?),
        Stmt::Label { body, .. } => Ok(add_stmt(known, made, body, around)?),
        Stmt::Try(boxed) => {
            let statement: &TryStatement = boxed;
            add_block(known, made, &statement.body, around)?;
            let inside = open_catch(known, made, statement.param, around)?;
            add_block(known, made, &statement.handler, inside)?;
            Ok(())
        }
        Stmt::Empty => Ok(()),
        Stmt::Debugger { .. } => Ok(()),
        Stmt::Binds { .. } => Ok(()),
        Stmt::Value { .. } => Ok(()),
        Stmt::Continue { .. } => Ok(()),
        Stmt::Break { .. } => Ok(()),
        Stmt::Return { .. } => Ok(()),
        Stmt::Throw { .. } => Ok(()),
        Stmt::Func(_) => Ok(()),
    }
}

#[cycle(scoping)]
fn add_else(
    known: &ScopeContext,
    made: &mut Scoping,
    no: &Option<Box<Stmt>>,
    around: ScopePosition,
) -> Result<(), AllocError>
    ensures { OnOk result ((bodies : ℕ → Stmts)
        → Scoped known.now.texts.now known.now.closed.now around made.old.scopes.items made.old.closed made.new.scopes.items
        made.new.closed (count_else (maybe_stmt_of (option_map (λ boxed. stmt_of (under known.now.texts.now bodies) boxed.value) no.now)))
        (scopes_else (maybe_stmt_of (option_map (λ boxed. stmt_of (under known.now.texts.now bodies) boxed.value) no.now)))) }
{
    match no {
        None => Ok(()),
        Some(body) => Ok(add_stmt(known, made, body, around)?),
    }
}

// Adds the scope of a block, and those in it.
#[cycle(scoping)]
fn add_block(
    known: &ScopeContext,
    made: &mut Scoping,
    items: &[Stmt],
    around: ScopePosition,
) -> Result<(), AllocError>
    ensures { OnOk result ((bodies : ℕ → Stmts) → let m = stmts_of
        (map (stmt_of (under known.now.texts.now bodies)) items.now) in Scoped known.now.texts.now known.now.closed.now around
        made.old.scopes.items made.old.closed made.new.scopes.items made.new.closed (scope_count (lexical_names m) + count_stmts m)
        (scope_around scope_kind.Lexical (lexical_names m) (block_inner m) (scopes_stmts m))) }
{
    let inside = open_block(known, made, items, around)?;
    add_stmts(known, made, items, inside)?;
    Ok(())
}

// Adds the scope of a `switch`, and those in it.
#[cycle(scoping)]
fn add_switch(
    known: &ScopeContext,
    made: &mut Scoping,
    clauses: &[Clause],
    around: ScopePosition,
) -> Result<(), AllocError>
    ensures { OnOk result ((bodies : ℕ → Stmts) → let m = clauses_of
        (map (clause_of (under known.now.texts.now bodies)) clauses.now) in Scoped known.now.texts.now known.now.closed.now around
        made.old.scopes.items made.old.closed made.new.scopes.items made.new.closed
        (scope_count (clauses_lexical_names m) + count_clauses m)
        (scope_around scope_kind.Lexical (clauses_lexical_names m) (uses_clauses m).inner (scopes_clauses m))) }
{
    let inside = open_switch(known, made, clauses, around)?;
    add_clauses(known, made, clauses, inside)?;
    Ok(())
}

/// Adds the scopes of statements.
#[cycle(scoping)]
pub fn add_stmts(
    known: &ScopeContext,
    made: &mut Scoping,
    items: &[Stmt],
    around: ScopePosition,
) -> Result<(), AllocError>
    ensures { OnOk result ((bodies : ℕ → Stmts)
        → Scoped known.now.texts.now known.now.closed.now around made.old.scopes.items made.old.closed made.new.scopes.items
        made.new.closed (count_stmts (stmts_of (map (stmt_of (under known.now.texts.now bodies)) items.now)))
        (scopes_stmts (stmts_of (map (stmt_of (under known.now.texts.now bodies)) items.now)))) }
{
    for item in items {
        add_stmt(known, made, item, around)?;
    }
    Ok(())
}

// Adds the scopes of the clauses of a `switch`.
#[cycle(scoping)]
fn add_clauses(
    known: &ScopeContext,
    made: &mut Scoping,
    clauses: &[Clause],
    around: ScopePosition,
) -> Result<(), AllocError>
    ensures { OnOk result ((bodies : ℕ → Stmts)
        → Scoped known.now.texts.now known.now.closed.now around made.old.scopes.items made.old.closed made.new.scopes.items
        made.new.closed (count_clauses (clauses_of (map (clause_of (under known.now.texts.now bodies)) clauses.now)))
        (scopes_clauses (clauses_of (map (clause_of (under known.now.texts.now bodies)) clauses.now)))) }
{
    for clause in clauses {
        add_stmts(known, made, &clause.items, around)?;
    }
    Ok(())
}
