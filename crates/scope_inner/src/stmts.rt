//! The functions directly in statements.
ghost use Rattle.std.specs.Prelude.{map, option_map, OnOk};
ghost use Rattle.script_grammar.specs.Tree as model;
ghost use Rattle.script_grammar.specs.TreeLists.{maybe_expr_of};
ghost use Rattle.script_grammar.specs.TreeOf.{expr_of, each_of, init_of, stmt_of};
ghost use Rattle.scope_inner.specs.Spots.{spot_of};
ghost use Rattle.scope_inner.specs.StmtFinds.{BlockFinds, ClausesFind, ElseFinds, HandlerFinds, RowFinds, StmtFinds, StmtsFind, SwitchFinds};

use crate::exprs::{find_expr, find_maybe, find_named};
use crate::parts::{find_binds, find_each, find_init};
use crate::places::{InnerContext, Walk, enter, within};
use emit_stmts::declares::{block_declares, clauses_declare, each_declares, init_declares};
use script_grammar::tree::{
    Clause, Each, Expr, ForInStatement, ForStatement, Ident, IfStatement, Init, Stmt,
    SwitchStatement, TryStatement,
};
use std::alloc::AllocError;
use stencil_data::FuncKind;

/// The functions directly in a statement, in the order of the source.
#[cycle(stmts)]
pub fn find_stmt<'a>(
    out: &mut Walk<'a>,
    place: &InnerContext,
    tree: &'a Stmt,
) -> Result<(), AllocError>
    ensures { OnOk result (StmtFinds (spot_of place.now) out.old out.new tree.now) }
{
    match tree {
        Stmt::Block(items) => Ok(find_block(out, place, items)?),
        Stmt::Empty => Ok(()),
        Stmt::Debugger { .. } => Ok(()),
        Stmt::Binds { binds, .. } => Ok(find_binds(&mut out.sites, binds, place.chain)?),
        Stmt::Value { value, .. } => Ok(find_expr(&mut out.sites, value, place.chain)?),
        Stmt::If(boxed) => {
            let statement: &IfStatement = boxed;
            find_expr(&mut out.sites, &statement.test, place.chain)?;
            find_stmt(out, place, &statement.yes)?;
            find_else(out, place, &statement.no)?;
            Ok(())
        }
        Stmt::Do { body, test, .. } => {
            find_stmt(out, place, body)?;
            find_expr(&mut out.sites, test, place.chain)?;
            Ok(())
        }
        Stmt::While { test, body } => {
            find_expr(&mut out.sites, test, place.chain)?;
            find_stmt(out, place, body)?;
            Ok(())
        }
        Stmt::For(boxed) => {
            let statement: &ForStatement = boxed;
            Ok(find_for(
                out,
                place,
                &statement.body,
                &statement.init,
                &statement.test,
                &statement.update,
            )?)
        }
        Stmt::ForIn(boxed) => {
            let statement: &ForInStatement = boxed;
            Ok(find_for_in(
                out,
                place,
                &statement.body,
                &statement.each,
                &statement.over,
            )?)
        }
        Stmt::Continue { .. } => Ok(()),
        Stmt::Break { .. } => Ok(()),
        Stmt::Return { value, .. } => Ok(find_maybe(&mut out.sites, value, place.chain)?),
        Stmt::Throw { value, .. } => Ok(find_expr(&mut out.sites, value, place.chain)?),
        Stmt::Switch(boxed) => {
            let statement: &SwitchStatement = boxed;
            find_expr(&mut out.sites, &statement.of, place.chain)?;
            find_switch(out, place, &statement.clauses)?;
            Ok(())
        }
        Stmt::Label { body, .. } => Ok(find_stmt(out, place, body)?),
        Stmt::Try(boxed) => {
            let statement: &TryStatement = boxed;
            find_block(out, place, &statement.body)?;
            find_handler(out, place, &statement.handler, statement.param)?;
            Ok(())
        }
        Stmt::Func(func) => Ok(find_named(&mut out.sites, func, FuncKind::Declared, place.chain)?),
    }
}

/// The functions directly in statements, one statement after the other.
#[cycle(stmts)]
pub fn find_stmts<'a>(
    out: &mut Walk<'a>,
    place: &InnerContext,
    items: &'a [Stmt],
) -> Result<(), AllocError>
    ensures { OnOk result (StmtsFind (spot_of place.now) out.old out.new items.now) }
{
    for item in items {
        find_stmt(out, place, item)?;
    }
    Ok(())
}

// In statements with the scope of the names that are declared among them.
#[cycle(stmts)]
fn find_block<'a>(
    out: &mut Walk<'a>,
    place: &InnerContext,
    items: &'a [Stmt],
) -> Result<(), AllocError>
    ensures { OnOk result (BlockFinds (spot_of place.now) out.old out.new items.now) }
{
    let chain = enter(&mut out.next, place, block_declares(items))?;
    let inside = within(place, &chain);
    find_stmts(out, &inside, items)?;
    Ok(())
}

// In the second branch of an `if`.
#[cycle(stmts)]
fn find_else<'a>(
    out: &mut Walk<'a>,
    place: &InnerContext,
    other: &'a Option<Box<Stmt>>,
) -> Result<(), AllocError>
    ensures { OnOk result (ElseFinds (spot_of place.now) out.old out.new other.now) }
{
    match other {
        None => Ok(()),
        Some(body) => Ok(find_stmt(out, place, body)?),
    }
}

#[cycle(stmts)]
fn find_for<'a>(
    out: &mut Walk<'a>,
    place: &InnerContext,
    body: &'a Stmt,
    init: &'a Init,
    test: &'a Option<Expr>,
    update: &'a Option<Expr>,
) -> Result<(), AllocError>
    ensures { OnOk result (RowFinds (spot_of place.now) out.old out.new
        (λ i. model.For (init_of i init.now) (maybe_expr_of (option_map (expr_of i) test.now))
        (maybe_expr_of (option_map (expr_of i) update.now)) (stmt_of i body.now))) }
{
    let chain = enter(&mut out.next, place, init_declares(init))?;
    let inside = within(place, &chain);
    find_init(&mut out.sites, init, &chain)?;
    find_maybe(&mut out.sites, test, &chain)?;
    find_maybe(&mut out.sites, update, &chain)?;
    find_stmt(out, &inside, body)?;
    Ok(())
}

#[cycle(stmts)]
fn find_for_in<'a>(
    out: &mut Walk<'a>,
    place: &InnerContext,
    body: &'a Stmt,
    each: &'a Each,
    over: &'a Expr,
) -> Result<(), AllocError>
    ensures { OnOk result (RowFinds (spot_of place.now) out.old out.new
        (λ i. model.ForIn (each_of i each.now) (expr_of i over.now) (stmt_of i body.now))) }
{
    let chain = enter(&mut out.next, place, each_declares(each))?;
    let inside = within(place, &chain);
    find_each(&mut out.sites, each, &chain)?;
    find_expr(&mut out.sites, over, &chain)?;
    find_stmt(out, &inside, body)?;
    Ok(())
}

// In the clauses of a `switch`, with the scope of the names that are declared among them.
#[cycle(stmts)]
fn find_switch<'a>(
    out: &mut Walk<'a>,
    place: &InnerContext,
    clauses: &'a [Clause],
) -> Result<(), AllocError>
    ensures { OnOk result (SwitchFinds (spot_of place.now) out.old out.new clauses.now) }
{
    let chain = enter(&mut out.next, place, clauses_declare(clauses))?;
    let inside = within(place, &chain);
    find_clauses(out, &inside, clauses)?;
    Ok(())
}

#[cycle(stmts)]
fn find_clauses<'a>(
    out: &mut Walk<'a>,
    place: &InnerContext,
    clauses: &'a [Clause],
) -> Result<(), AllocError>
    ensures { OnOk result (ClausesFind (spot_of place.now) out.old out.new clauses.now) }
{
    for clause in clauses {
        find_maybe(&mut out.sites, &clause.test, place.chain)?;
        find_stmts(out, place, &clause.items)?;
    }
    Ok(())
}

// In a handler, with the scope of its parameter.
#[cycle(stmts)]
fn find_handler<'a>(
    out: &mut Walk<'a>,
    place: &InnerContext,
    items: &'a [Stmt],
    param: Option<Ident>,
) -> Result<(), AllocError>
    ensures { OnOk result (HandlerFinds (spot_of place.now) out.old out.new param items.now) }
{
    let chain = enter(&mut out.next, place, param.is_some())?;
    let inside = within(place, &chain);
    find_block(out, &inside, items)?;
    Ok(())
}
