//! The code of a whole statement.
ghost use Rattle.std.specs.Prelude.{◌≡◌, ℕ, Bool, map, option_map, OnOk};
ghost use Rattle.script_grammar.specs.Interpretation.{named};
ghost use Rattle.script_grammar.specs.Tree as model;
ghost use Rattle.script_grammar.specs.TreeLists.{maybe_expr_of};
ghost use Rattle.script_grammar.specs.TreeOf.{expr_of, each_of, init_of, stmt_of};
ghost use Rattle.emit_stmts.specs.Positions.{position_of, within, state};
ghost use Rattle.emit_stmts.specs.StmtCode.{RowWritten, StmtWritten, StmtsWritten};
ghost use Rattle.emit_stmts.specs.PartCode.{BlockWritten, ClausesWritten, FirstWritten, ForWritten, ForInWritten, GuardedWritten};
ghost use Rattle.emit_stmts.specs.PartCode.{HandlerWritten, clauses_in};

use crate::bindings::{init, update};
use crate::declares::{block_declares, clauses_declare, each_declares, init_declares};
use crate::draft::Draft;
use crate::frames::{Frame, framed_site, frames_inside};
use crate::functions::{block_functions, clause_functions};
use crate::heads::{freshen_head, keys_test, loop_test};
use crate::inside::{enter_next, may_enter, push_next, within_scope};
use crate::returning::return_stmt;
use crate::scoping::leave_scope;
use crate::simple::{break_stmt, continue_stmt, debugger_stmt};
use crate::stmt_context::StmtContext;
use crate::storing::store_each;
use crate::switching::{ClauseJumps, cases, clause_target, default_aim};
use crate::trying::{caught, close_try, dropped, open_try};
use crate::valued::{binding_stmt, throw_stmt, value_stmt};
use bytecode_buf::{Aim, Op, Wait, jump_to, target, turn};
use emit_exprs::steps::plain;
use emit_exprs::{Use, emit_expr};
use script_grammar::tree::{
    Clause, Each, Expr, ForInStatement, ForStatement, Ident, IfStatement, Init, Stmt,
    SwitchStatement, TryStatement,
};
use std::alloc::AllocError;

/// Appends the code of a statement.
#[cycle(stmts)]
pub fn emit_stmt(
    out: &mut Draft,
    waits: &mut Vec<Wait>,
    site: &StmtContext,
    tree: &Stmt,
) -> Result<(), AllocError>
    ensures { OnOk result (StmtWritten (position_of site.now) (state out.old waits.old.items)
        (state out.new waits.new.items) out.old.next out.new.next tree.now) }
{
    match tree {
        Stmt::Block(items) => Ok(emit_block(out, waits, site, items)?),
        Stmt::Empty => Ok(()),
        Stmt::Debugger { semi: _ } => Ok(debugger_stmt(out, site)?),
        Stmt::Binds {
            decl,
            binds,
            semi: _,
        } => Ok(binding_stmt(out, site, *decl, binds)?),
        Stmt::Value { value, semi: _ } => Ok(value_stmt(out, site, value)?),
        Stmt::If(boxed) => {
            let statement: &IfStatement = boxed;
            match &statement.no {
                None => Ok(emit_then(out, waits, site, &statement.yes, &statement.test)?),
                Some(second) => {
                    let last: &Stmt = second;
                    let mut ends = Vec::new(site.exprs.alloc);
                    emit_first(out, &mut ends, site, &statement.yes, &statement.test)?;
                    emit_stmt(out, &mut ends, site, last)?;
                    target(&mut out.code, &ends, Aim::After, waits)?;
                    Ok(())
                }
            }
        }
        Stmt::Do {
            semi: _,
            body,
            test,
        } => Ok(emit_do(out, waits, site, body, test)?),
        Stmt::While { test, body } => Ok(emit_while(out, waits, site, body, test)?),
        Stmt::For(boxed) => {
            let statement: &ForStatement = boxed;
            Ok(emit_for(
                out,
                waits,
                site,
                &statement.body,
                &statement.init,
                &statement.test,
                &statement.update,
            )?)
        }
        Stmt::ForIn(boxed) => {
            let statement: &ForInStatement = boxed;
            Ok(emit_for_in(
                out,
                waits,
                site,
                &statement.body,
                &statement.each,
                &statement.over,
            )?)
        }
        Stmt::Continue {
            at: _,
            label,
            semi: _,
        } => Ok(continue_stmt(out, waits, site, *label)?),
        Stmt::Break {
            at: _,
            label,
            semi: _,
        } => Ok(break_stmt(out, waits, site, *label)?),
        Stmt::Return { semi: _, value } => Ok(return_stmt(out, site, value)?),
        Stmt::Throw { value, semi: _ } => Ok(throw_stmt(out, site, value)?),
        Stmt::Switch(boxed) => {
            let statement: &SwitchStatement = boxed;
            Ok(emit_switch(out, waits, site, &statement.clauses, &statement.of)?)
        }
        Stmt::Label { name, body } => Ok(emit_label(out, waits, site, body, *name)?),
        Stmt::Try(boxed) => {
            let statement: &TryStatement = boxed;
            let mut ends = Vec::new(site.exprs.alloc);
            emit_guarded(out, &mut ends, site, &statement.body)?;
            plain(&mut out.code, Op::JumpTarget)?;
            emit_handler(out, &mut ends, site, &statement.handler, statement.param)?;
            target(&mut out.code, &ends, Aim::After, waits)?;
            Ok(())
        }
        Stmt::Func(_) => Ok(()),
    }
}

/// Appends the code of statements, one after the other.
#[cycle(stmts)]
pub fn emit_stmts(
    out: &mut Draft,
    waits: &mut Vec<Wait>,
    site: &StmtContext,
    items: &[Stmt],
) -> Result<(), AllocError>
    ensures { OnOk result (StmtsWritten (position_of site.now) (state out.old waits.old.items)
        (state out.new waits.new.items) out.old.next out.new.next items.now) }
{
    for item in items {
        emit_stmt(out, waits, site, item)?;
    }
    Ok(())
}

// Statements with the scope of the names that are declared among them.
#[cycle(stmts)]
fn emit_block(
    out: &mut Draft,
    waits: &mut Vec<Wait>,
    site: &StmtContext,
    items: &[Stmt],
) -> Result<(), AllocError>
    ensures { OnOk result (BlockWritten (position_of site.now) (state out.old waits.old.items)
        (state out.new waits.new.items) out.old.next out.new.next items.now) }
{
    if may_enter(site, block_declares(items)) {
        let scope = enter_next(out, site)?;
        let inside = within_scope(site, &scope);
        block_functions(&mut out.code, &inside.exprs, items)?;
        emit_stmts(out, waits, &inside, items)?;
        leave_scope(&mut out.code, site, scope.number)?;
        Ok(())
    } else {
        block_functions(&mut out.code, &site.exprs, items)?;
        emit_stmts(out, waits, site, items)?;
        Ok(())
    }
}

// An `if` without an `else`.
#[cycle(stmts)]
fn emit_then(
    out: &mut Draft,
    waits: &mut Vec<Wait>,
    site: &StmtContext,
    body: &Stmt,
    test: &Expr,
) -> Result<(), AllocError>
    ensures { OnOk result (RowWritten (position_of site.now) (state out.old waits.old.items)
        (state out.new waits.new.items) out.old.next out.new.next
        (λ w. model.If (expr_of (within (position_of site.now) w) test.now) (stmt_of (within (position_of site.now) w) body.now) model.no_stmt)) }
{
    let mut inner = Vec::new(site.exprs.alloc);
    emit_expr(&mut out.code, &site.exprs, test, Use::Plainly)?;
    jump_to(&mut out.code, Op::JumpIfFalse, Aim::Otherwise, &mut inner)?;
    emit_stmt(out, &mut inner, site, body)?;
    target(&mut out.code, &inner, Aim::Otherwise, waits)?;
    Ok(())
}

// An `if` up to its second branch, over which the first one jumps.
#[cycle(stmts)]
fn emit_first(
    out: &mut Draft,
    waits: &mut Vec<Wait>,
    site: &StmtContext,
    body: &Stmt,
    test: &Expr,
) -> Result<(), AllocError>
    ensures { OnOk result (FirstWritten (position_of site.now) (state out.old waits.old.items)
        (state out.new waits.new.items) out.old.next out.new.next test.now body.now) }
{
    let mut inner = Vec::new(site.exprs.alloc);
    emit_expr(&mut out.code, &site.exprs, test, Use::Plainly)?;
    jump_to(&mut out.code, Op::JumpIfFalse, Aim::Otherwise, &mut inner)?;
    emit_stmt(out, &mut inner, site, body)?;
    jump_to(&mut out.code, Op::Goto, Aim::After, &mut inner)?;
    target(&mut out.code, &inner, Aim::Otherwise, waits)?;
    Ok(())
}

#[cycle(stmts)]
fn emit_do(
    out: &mut Draft,
    waits: &mut Vec<Wait>,
    site: &StmtContext,
    body: &Stmt,
    test: &Expr,
) -> Result<(), AllocError>
    ensures { OnOk result ((semi : Bool) → RowWritten (position_of site.now) (state out.old waits.old.items)
        (state out.new waits.new.items) out.old.next out.new.next
        (λ w. model.Do (stmt_of (within (position_of site.now) w) body.now) (expr_of (within (position_of site.now) w) test.now) semi)) }
{
    let frames = frames_inside(site.exprs.alloc, Frame::Loop, site.frames)?;
    let inside = framed_site(site, &frames);
    let level = site.frames.len();
    let start = out.code.len();
    let mut inner = Vec::new(site.exprs.alloc);
    let mut turned = Vec::new(site.exprs.alloc);
    plain(&mut out.code, Op::LoopHead)?;
    emit_stmt(out, &mut inner, &inside, body)?;
    target(&mut out.code, &inner, Aim::Continue(level), &mut turned)?;
    emit_expr(&mut out.code, &inside.exprs, test, Use::Plainly)?;
    turn(&mut out.code, Op::JumpIfTrue, start)?;
    target(&mut out.code, &turned, Aim::Break(level), waits)?;
    Ok(())
}

#[cycle(stmts)]
fn emit_while(
    out: &mut Draft,
    waits: &mut Vec<Wait>,
    site: &StmtContext,
    body: &Stmt,
    test: &Expr,
) -> Result<(), AllocError>
    ensures { OnOk result (RowWritten (position_of site.now) (state out.old waits.old.items)
        (state out.new waits.new.items) out.old.next out.new.next
        (λ w. model.While (expr_of (within (position_of site.now) w) test.now) (stmt_of (within (position_of site.now) w) body.now))) }
{
    let frames = frames_inside(site.exprs.alloc, Frame::Loop, site.frames)?;
    let inside = framed_site(site, &frames);
    let level = site.frames.len();
    let start = out.code.len();
    let mut inner = Vec::new(site.exprs.alloc);
    let mut turned = Vec::new(site.exprs.alloc);
    plain(&mut out.code, Op::LoopHead)?;
    emit_expr(&mut out.code, &inside.exprs, test, Use::Plainly)?;
    jump_to(
        &mut out.code,
        Op::JumpIfFalse,
        Aim::Break(level),
        &mut inner,
    )?;
    emit_stmt(out, &mut inner, &inside, body)?;
    target(&mut out.code, &inner, Aim::Continue(level), &mut turned)?;
    turn(&mut out.code, Op::Goto, start)?;
    target(&mut out.code, &turned, Aim::Break(level), waits)?;
    Ok(())
}

// The turns of a `for` whose head has the scope with this number, if any.
#[cycle(stmts)]
fn emit_turns(
    out: &mut Draft,
    waits: &mut Vec<Wait>,
    site: &StmtContext,
    body: &Stmt,
    head: Option<usize>,
    test: &Option<Expr>,
    step: &Option<Expr>,
) -> Result<(), AllocError>
    ensures { OnOk result (ForWritten (position_of site.now) (state out.old waits.old.items)
        (state out.new waits.new.items) out.old.next out.new.next head test.now step.now body.now) }
{
    let frames = frames_inside(site.exprs.alloc, Frame::Loop, site.frames)?;
    let inside = framed_site(site, &frames);
    let level = site.frames.len();
    let start = out.code.len();
    let mut inner = Vec::new(site.exprs.alloc);
    let mut turned = Vec::new(site.exprs.alloc);
    plain(&mut out.code, Op::LoopHead)?;
    loop_test(&mut out.code, &mut inner, &inside, level, test)?;
    emit_stmt(out, &mut inner, &inside, body)?;
    target(&mut out.code, &inner, Aim::Continue(level), &mut turned)?;
    freshen_head(&mut out.code, &inside, head)?;
    update(&mut out.code, &inside.exprs, step)?;
    turn(&mut out.code, Op::Goto, start)?;
    target(&mut out.code, &turned, Aim::Break(level), waits)?;
    Ok(())
}

#[cycle(stmts)]
fn emit_for(
    out: &mut Draft,
    waits: &mut Vec<Wait>,
    site: &StmtContext,
    body: &Stmt,
    first: &Init,
    test: &Option<Expr>,
    step: &Option<Expr>,
) -> Result<(), AllocError>
    ensures { OnOk result (RowWritten (position_of site.now) (state out.old waits.old.items)
        (state out.new waits.new.items) out.old.next out.new.next
        (λ w. model.For (init_of (within (position_of site.now) w) first.now)
        (maybe_expr_of (option_map (expr_of (within (position_of site.now) w)) test.now))
        (maybe_expr_of (option_map (expr_of (within (position_of site.now) w)) step.now)) (stmt_of (within (position_of site.now) w) body.now))) }
{
    if may_enter(site, init_declares(first)) {
        let scope = enter_next(out, site)?;
        let inside = within_scope(site, &scope);
        let head = Some(scope.number);
        init(&mut out.code, &inside.exprs, first)?;
        freshen_head(&mut out.code, &inside, head)?;
        emit_turns(out, waits, &inside, body, head, test, step)?;
        leave_scope(&mut out.code, site, scope.number)?;
        Ok(())
    } else {
        init(&mut out.code, &site.exprs, first)?;
        emit_turns(out, waits, site, body, None, test, step)?;
        Ok(())
    }
}

// A for-in whose head has the scope with this number, if any.
#[cycle(stmts)]
fn emit_keys(
    out: &mut Draft,
    waits: &mut Vec<Wait>,
    site: &StmtContext,
    body: &Stmt,
    head: Option<usize>,
    each: &Each,
    over: &Expr,
) -> Result<(), AllocError>
    ensures { OnOk result (ForInWritten (position_of site.now) (state out.old waits.old.items)
        (state out.new waits.new.items) out.old.next out.new.next head each.now over.now body.now) }
{
    let frames = frames_inside(site.exprs.alloc, Frame::KeysLoop, site.frames)?;
    let inside = framed_site(site, &frames);
    let level = site.frames.len();
    let mut inner = Vec::new(site.exprs.alloc);
    let mut turned = Vec::new(site.exprs.alloc);
    emit_expr(&mut out.code, &site.exprs, over, Use::Plainly)?;
    plain(&mut out.code, Op::Iter)?;
    let start = out.code.len();
    keys_test(&mut out.code, &mut inner, level)?;
    freshen_head(&mut out.code, &inside, head)?;
    plain(&mut out.code, Op::Dup)?;
    store_each(&mut out.code, &inside.exprs, each)?;
    plain(&mut out.code, Op::Pop)?;
    emit_stmt(out, &mut inner, &inside, body)?;
    target(&mut out.code, &inner, Aim::Continue(level), &mut turned)?;
    plain(&mut out.code, Op::Pop)?;
    turn(&mut out.code, Op::Goto, start)?;
    target(&mut out.code, &turned, Aim::Break(level), waits)?;
    plain(&mut out.code, Op::EndIter)?;
    Ok(())
}

#[cycle(stmts)]
fn emit_for_in(
    out: &mut Draft,
    waits: &mut Vec<Wait>,
    site: &StmtContext,
    body: &Stmt,
    each: &Each,
    over: &Expr,
) -> Result<(), AllocError>
    ensures { OnOk result (RowWritten (position_of site.now) (state out.old waits.old.items)
        (state out.new waits.new.items) out.old.next out.new.next
        (λ w. model.ForIn (each_of (within (position_of site.now) w) each.now) (expr_of (within (position_of site.now) w) over.now)
        (stmt_of (within (position_of site.now) w) body.now))) }
{
    if may_enter(site, each_declares(each)) {
        let scope = enter_next(out, site)?;
        let inside = within_scope(site, &scope);
        emit_keys(out, waits, &inside, body, Some(scope.number), each, over)?;
        leave_scope(&mut out.code, site, scope.number)?;
        Ok(())
    } else {
        Ok(emit_keys(out, waits, site, body, None, each, over)?)
    }
}

// The tests of a `switch` and its clauses, after which a `break` goes.
#[cycle(stmts)]
fn emit_clauses(
    out: &mut Draft,
    waits: &mut Vec<Wait>,
    site: &StmtContext,
    clauses: &[Clause],
) -> Result<(), AllocError>
    ensures { OnOk result (ClausesWritten (position_of site.now) (state out.old waits.old.items)
        (state out.new waits.new.items) out.old.next out.new.next clauses.now) }
{
    let frames = frames_inside(site.exprs.alloc, Frame::Switching, site.frames)?;
    let inside = framed_site(site, &frames);
    let level = site.frames.len();
    let mut tests = Vec::new(site.exprs.alloc);
    cases(&mut out.code, &mut tests, &inside, clauses)?;
    let mut otherwise = Vec::new(site.exprs.alloc);
    jump_to(
        &mut out.code,
        Op::Default,
        default_aim(level, clauses),
        &mut otherwise,
    )?;
    let mut jumps = ClauseJumps {
        tests,
        landed: 0,
        otherwise,
    };
    let mut inner = Vec::new(site.exprs.alloc);
    for (place, clause) in clauses.iter().enumerate() {
        clause_target(site.exprs.alloc, &mut out.code, &mut jumps, place)?;
        emit_stmts(out, &mut inner, &inside, &clause.items)?;
    }
    let ClauseJumps {
        tests: _,
        landed: _,
        otherwise: mut last,
    } = jumps;
    last.extend_from_slice(&inner)?;
    target(&mut out.code, &last, Aim::Break(level), waits)?;
    Ok(())
}

#[cycle(stmts)]
fn emit_switch(
    out: &mut Draft,
    waits: &mut Vec<Wait>,
    site: &StmtContext,
    clauses: &[Clause],
    of: &Expr,
) -> Result<(), AllocError>
    ensures { OnOk result (RowWritten (position_of site.now) (state out.old waits.old.items)
        (state out.new waits.new.items) out.old.next out.new.next
        (λ w. model.Switch (expr_of (within (position_of site.now) w) of.now) (clauses_in (position_of site.now) w clauses.now))) }
{
    emit_expr(&mut out.code, &site.exprs, of, Use::Plainly)?;
    if may_enter(site, clauses_declare(clauses)) {
        let scope = enter_next(out, site)?;
        let inside = within_scope(site, &scope);
        clause_functions(&mut out.code, &inside.exprs, clauses)?;
        emit_clauses(out, waits, &inside, clauses)?;
        leave_scope(&mut out.code, site, scope.number)?;
        Ok(())
    } else {
        clause_functions(&mut out.code, &site.exprs, clauses)?;
        emit_clauses(out, waits, site, clauses)?;
        Ok(())
    }
}

#[cycle(stmts)]
fn emit_label(
    out: &mut Draft,
    waits: &mut Vec<Wait>,
    site: &StmtContext,
    body: &Stmt,
    name: Ident,
) -> Result<(), AllocError>
    ensures { OnOk result (RowWritten (position_of site.now) (state out.old waits.old.items)
        (state out.new waits.new.items) out.old.next out.new.next
        (λ w. model.Label (named (within (position_of site.now) w) name) (stmt_of (within (position_of site.now) w) body.now))) }
{
    let frames = frames_inside(site.exprs.alloc, Frame::Labelled(name.atom), site.frames)?;
    let inside = framed_site(site, &frames);
    let mut inner = Vec::new(site.exprs.alloc);
    emit_stmt(out, &mut inner, &inside, body)?;
    target(&mut out.code, &inner, Aim::Break(site.frames.len()), waits)?;
    Ok(())
}

// The block of a `try`, up to the jump over its handler.
#[cycle(stmts)]
fn emit_guarded(
    out: &mut Draft,
    waits: &mut Vec<Wait>,
    site: &StmtContext,
    items: &[Stmt],
) -> Result<(), AllocError>
    ensures { OnOk result (GuardedWritten (position_of site.now) (state out.old waits.old.items)
        (state out.new waits.new.items) out.old.next out.new.next items.now) }
{
    let number = open_try(out, site.frames)?;
    emit_block(out, waits, site, items)?;
    jump_to(&mut out.code, Op::Goto, Aim::After, waits)?;
    close_try(out, number);
    Ok(())
}

// What a `try` catches, and its handler.
#[cycle(stmts)]
fn emit_handler(
    out: &mut Draft,
    waits: &mut Vec<Wait>,
    site: &StmtContext,
    items: &[Stmt],
    param: Option<Ident>,
) -> Result<(), AllocError>
    ensures { OnOk result (HandlerWritten (position_of site.now) (state out.old waits.old.items)
        (state out.new waits.new.items) out.old.next out.new.next param items.now) }
{
    match param {
        Some(name) => Ok(emit_catch(out, waits, site, items, name)?),
        None => {
            dropped(&mut out.code)?;
            emit_block(out, waits, site, items)?;
            Ok(())
        }
    }
}

// A handler with a parameter.
#[cycle(stmts)]
fn emit_catch(
    out: &mut Draft,
    waits: &mut Vec<Wait>,
    site: &StmtContext,
    items: &[Stmt],
    name: Ident,
) -> Result<(), AllocError>
    ensures { OnOk result (HandlerWritten (position_of site.now) (state out.old waits.old.items)
        (state out.new waits.new.items) out.old.next out.new.next (Some name) items.now) }
{
    if may_enter(site, true) {
        let scope = push_next(out, site)?;
        let inside = within_scope(site, &scope);
        caught(&mut out.code, &inside.exprs, name.atom)?;
        emit_block(out, waits, &inside, items)?;
        leave_scope(&mut out.code, site, scope.number)?;
        Ok(())
    } else {
        Ok(emit_block(out, waits, site, items)?)
    }
}
