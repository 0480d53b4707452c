//! The script itself: its code, and its stencil.
ghost use Rattle.std.specs.Prelude.{◌≡◌, ◌^◌, ◌<◌, ◌∷◌, [], length, map, OnOk, IfOk};
ghost use Rattle.script_grammar.specs.Interpretation.{Interpretation};
ghost use Rattle.script_grammar.specs.TreeLists.{stmts_of};
ghost use Rattle.script_grammar.specs.TreeOf.{stmt_of};
ghost use Rattle.stencil_data.specs.StandsFor.{named_scope};
ghost use Rattle.scope_analysis.specs.Walked.{ScopesFit};
ghost use Rattle.emit_exprs.specs.Rising.{Rises};
ghost use Rattle.emit_stmts.specs.Frames.{global_link};
ghost use Rattle.emit_stmts.specs.Functions as defined;
ghost use Rattle.emit_stmts.specs.Positions.{position_of, state};
ghost use Rattle.emit_stmts.specs.ScriptCode.{ScriptWritten, Drafted, IsTop};

use crate::draft::Draft;
use crate::stmt_context::StmtContext;
use crate::stmts::emit_stmts;
use bytecode_buf::{CodeBuf, Op, Wait};
use emit_exprs::Site;
use emit_exprs::steps::{counted, plain};
use script_grammar::tree::Stmt;
use std::alloc::{AllocError, Global};
use stencil_data::{Chain, Extent, FuncKind, FunctionStencil, ScopeData, Text};

// How many scopes may be entered one in another inside the global one.
const ROOM: usize = 64999;

// How many functions a statement declares.
fn functions_in(stmt: &Stmt) -> u32
    ensures { (i : Interpretation) → result ≡ defined.function_count (stmts_of (stmt_of i stmt.now ∷ [])) }
{
    match stmt {
        Stmt::Func(_) => 1,
        _ => 0,
    }
}

// How many functions are declared at the top of a script, in 32 bits.
fn function_count(items: &[Stmt]) -> u32
    ensures { (i : Interpretation) → defined.function_count (stmts_of (map (stmt_of i) items.now)) < 2 ^ 32
        → result ≡ defined.function_count (stmts_of (map (stmt_of i) items.now)) }
{
    let mut count: u32 = 0;
    for item in items {
        count = count.wrapping_add(functions_in(item));
    }
    count
}

/// Appends the code of a script's statements, with what stands before them and after.
pub fn emit_script(
    out: &mut Draft,
    waits: &mut Vec<Wait>,
    site: &StmtContext,
    items: &[Stmt],
) -> Result<(), AllocError>
    ensures { OnOk result (ScriptWritten (position_of site.now) (state out.old waits.old.items)
        (state out.new waits.new.items) out.old.next out.new.next items.now) }
{
    let count = function_count(items);
    counted(&mut out.code, Op::GlobalOrEvalDeclInstantiation, count)?;
    emit_stmts(out, waits, site, items)?;
    plain(&mut out.code, Op::RetRval)?;
    Ok(())
}

// The code of a script with these scopes and inner functions, under the chain of the global scope alone.
fn draft_script<'a>(
    alloc: Global,
    items: &[Stmt],
    chain: &'a Chain,
    scopes: &'a [ScopeData],
    inner: &'a [Extent],
    texts: &'a [Text],
) -> Result<Draft, AllocError>
    requires global { chain.now ≡ global_link ∷ [] }
    requires few_scopes { length scopes.now < 2 ^ 32 }
    requires slots { ScopesFit (map (named_scope texts.now) scopes.now) }
    requires few_inner { length inner.now < 2 ^ 32 }
    requires ordered { Rises 0 inner.now }
    ensures { IfOk result (λ draft. Drafted texts.now scopes.now inner.now items.now draft.code draft.notes.items) }
{
    let exprs = Site {
        alloc,
        chain,
        texts,
        inner,
    };
    let site = StmtContext {
        exprs,
        frames: &[],
        scopes,
        is_script: true,
        room: ROOM,
    };
    let mut out = Draft {
        code: CodeBuf::new(alloc),
        notes: Vec::new(alloc),
        next: 1,
    };
    let mut waits = Vec::new(alloc);
    emit_script(&mut out, &mut waits, &site, items)?;
    Ok(out)
}

/// The script's own stencil, where its scopes and the extents of the functions directly in it, by rising start, are handed
/// in. `end` is the offset after its text, and atoms are indexes into `texts`.
pub fn top(
    alloc: Global,
    items: &[Stmt],
    scopes: Vec<ScopeData>,
    inner: Vec<Extent>,
    end: u32,
    texts: &[Text],
) -> Result<FunctionStencil, AllocError>
    requires few_scopes { length scopes.items < 2 ^ 32 }
    requires slots { ScopesFit (map (named_scope texts.now) scopes.items) }
    requires few_inner { length inner.items < 2 ^ 32 }
    requires ordered { Rises 0 inner.items }
    ensures { IfOk result (λ top. IsTop texts.now scopes.items inner.items items.now end top) }
{
    let chain = Chain::global(alloc)?;
    let Draft {
        code,
        notes,
        next: _,
    } = draft_script(alloc, items, &chain, &scopes, &inner, texts)?;
    Ok(FunctionStencil {
        extent: Extent { start: 0, end },
        kind: FuncKind::Declared,
        name: None,
        params: 0,
        scopes,
        code: code.into_bytes(),
        notes,
        inner,
    })
}
