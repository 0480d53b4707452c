//! Functions that are declared, and the first value of a name.
ghost use Rattle.std.specs.Prelude.{◌≡◌, OnOk, option_copied};
ghost use Rattle.script_grammar.specs.Interpretation.{Interpretation};
ghost use Rattle.script_grammar.specs.TreeOf.{stmt_of};
ghost use Rattle.emit_exprs.specs.Exprs.{Scene};
ghost use Rattle.emit_exprs.specs.Sites.{EmitsAt, scene_of, text_in};
ghost use Rattle.emit_stmts.specs.Stmts as code;
ghost use Rattle.emit_stmts.specs.ValueCode.{BlockFunctionsEmit, ClauseFunctionsEmit, FunctionEmits, StmtFunctionEmits, declared_by};

use bytecode_buf::{CodeBuf, Op};
use emit_exprs::scenes::{find_place, writing};
use emit_exprs::steps::plain;
use emit_exprs::{Site, init_at, lambda};
use script_grammar::tree::{Clause, Func, Stmt};
use std::alloc::AllocError;

/// The value on top of the stack into a lexical name or a catch parameter for the first time.
pub fn initializing(out: &mut CodeBuf, site: &Site, atom: u32) -> Result<(), AllocError>
    ensures { OnOk result (EmitsAt site.now out.old out.new (code.initializing (scene_of site.now) (text_in site.now atom))) }
{
    let place = find_place(site, atom);
    init_at(out, atom, &place)?;
    Ok(())
}

/// A function that is declared in a block.
pub fn declaring(out: &mut CodeBuf, site: &Site, func: &Func) -> Result<(), AllocError>
    ensures { OnOk result (FunctionEmits site.now out.old out.new func.now code.declaring) }
{
    match func.name {
        Some(name) => {
            lambda(out, site, func.start)?;
            initializing(out, site, name.atom)?;
            plain(out, Op::Pop)?;
            Ok(())
        }
        None => Ok(()),
    }
}

/// A function that is declared at the top of a function's body.
pub fn assigning_function(out: &mut CodeBuf, site: &Site, func: &Func) -> Result<(), AllocError>
    ensures { OnOk result (FunctionEmits site.now out.old out.new func.now code.assigning_function) }
{
    match func.name {
        Some(name) => {
            lambda(out, site, func.start)?;
            writing(out, site, name.atom)?;
            plain(out, Op::Pop)?;
            Ok(())
        }
        None => Ok(()),
    }
}

// The function that a statement declares, if it does.
fn declared_function(stmt: &Stmt) -> Option<&Func>
    ensures { (i : Interpretation) (scene : Scene) → code.declared_in scene (stmt_of i stmt.now) ≡ declared_by scene i (option_copied result) }
{
    match stmt {
        Stmt::Func(boxed) => {
            let func: &Func = boxed;
            Some(func)
        }
        _ => None,
    }
}

fn declared_in(out: &mut CodeBuf, site: &Site, stmt: &Stmt) -> Result<(), AllocError>
    ensures { OnOk result (StmtFunctionEmits site.now out.old out.new stmt.now) }
{
    match declared_function(stmt) {
        Some(func) => Ok(declaring(out, site, func)?),
        None => Ok(()),
    }
}

/// The functions that are declared in a block.
pub fn block_functions(out: &mut CodeBuf, site: &Site, items: &[Stmt]) -> Result<(), AllocError>
    ensures { OnOk result (BlockFunctionsEmit site.now out.old out.new items.now) }
{
    for item in items {
        declared_in(out, site, item)?;
    }
    Ok(())
}

/// The functions that are declared in the clauses of a `switch`.
pub fn clause_functions(
    out: &mut CodeBuf,
    site: &Site,
    clauses: &[Clause],
) -> Result<(), AllocError>
    ensures { OnOk result (ClauseFunctionsEmit site.now out.old out.new clauses.now) }
{
    for clause in clauses {
        block_functions(out, site, &clause.items)?;
    }
    Ok(())
}
