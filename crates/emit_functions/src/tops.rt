//! What stands at the top of a function's body: the scope of its lexical names, its functions, and its statements.
ghost use Rattle.std.specs.Prelude.{◌≡◌, map, option_copied, OnOk};
ghost use Rattle.script_grammar.specs.Interpretation.{Interpretation};
ghost use Rattle.script_grammar.specs.TreeLists.{stmts_of};
ghost use Rattle.script_grammar.specs.TreeOf.{stmt_of};
ghost use Rattle.scope_analysis.specs.DeclaredNames as names;
ghost use Rattle.emit_exprs.specs.Exprs.{Scene};
ghost use Rattle.emit_stmts.specs.Declares as defined;
ghost use Rattle.emit_stmts.specs.Functions as code;
ghost use Rattle.emit_stmts.specs.Positions.{position_of, state};
ghost use Rattle.emit_functions.specs.TopCode.{TopFunctionEmits, TopFunctionsEmit, TopWritten, assigned_by};

use bytecode_buf::{CodeBuf, Wait};
use emit_exprs::Site;
use emit_stmts::declares::binds_declare;
use emit_stmts::functions::assigning_function;
use emit_stmts::inside::{enter_next, may_enter, within_scope};
use emit_stmts::scoping::leave_scope;
use emit_stmts::stmts::emit_stmts;
use emit_stmts::{Draft, StmtContext};
use script_grammar::tree::{Func, Stmt};
use std::alloc::AllocError;

// Whether a statement at the top of a body declares a name in its lexical scope.
fn stmt_declares(stmt: &Stmt) -> bool
    ensures { (i : Interpretation) → result ≡ defined.declares (names.top_lexical_name (stmt_of i stmt.now)) }
{
    match stmt {
        Stmt::Binds { decl, binds, .. } => binds_declare(*decl, binds),
        _ => false,
    }
}

// Whether a body has a lexical scope.
fn top_declares(items: &[Stmt]) -> bool
    ensures { (i : Interpretation) → result ≡ defined.declares (names.top_lexical_names (stmts_of (map (stmt_of i) items.now))) }
{
    for item in items {
        if stmt_declares(item) {
            return true;
        }
    }
    false
}

// The function that a statement declares, if it does.
fn declared_function(stmt: &Stmt) -> Option<&Func>
    ensures { (i : Interpretation) (scene : Scene) → code.top_function scene (stmt_of i stmt.now) ≡ assigned_by scene i (option_copied result) }
{
    match stmt {
        Stmt::Func(boxed) => {
            let func: &Func = boxed;
            Some(func)
        }
        _ => None,
    }
}

fn top_function(out: &mut CodeBuf, site: &Site, stmt: &Stmt) -> Result<(), AllocError>
    ensures { OnOk result (TopFunctionEmits site.now out.old out.new stmt.now) }
{
    match declared_function(stmt) {
        Some(func) => Ok(assigning_function(out, site, func)?),
        None => Ok(()),
    }
}

// The functions that are declared at the top of a body.
fn top_functions(out: &mut CodeBuf, site: &Site, items: &[Stmt]) -> Result<(), AllocError>
    ensures { OnOk result (TopFunctionsEmit site.now out.old out.new items.now) }
{
    for item in items {
        top_function(out, site, item)?;
    }
    Ok(())
}

/// The statements of a body with the scope of the lexical names that are declared at its top, and the functions that are
/// declared there before them.
pub fn top_scope(
    out: &mut Draft,
    waits: &mut Vec<Wait>,
    site: &StmtContext,
    items: &[Stmt],
) -> Result<(), AllocError>
    ensures { OnOk result (TopWritten (position_of site.now) (state out.old waits.old.items)
        (state out.new waits.new.items) out.old.next out.new.next items.now) }
{
    if may_enter(site, top_declares(items)) {
        let scope = enter_next(out, site)?;
        let inside = within_scope(site, &scope);
        top_functions(&mut out.code, &inside.exprs, items)?;
        emit_stmts(out, waits, &inside, items)?;
        leave_scope(&mut out.code, site, scope.number)?;
        Ok(())
    } else {
        top_functions(&mut out.code, &site.exprs, items)?;
        emit_stmts(out, waits, site, items)?;
        Ok(())
    }
}
