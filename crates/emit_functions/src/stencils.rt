//! Functions: their code, and their stencils.
ghost use Rattle.std.specs.Prelude.{◌≡◌, ◌+◌, ◌^◌, ◌<◌, ◌≤◌, length, map, option_map, List, ℕ, OnOk, IfOk};
ghost use Rattle.stencil_data.specs.Fits.{ChainFits};
ghost use Rattle.stencil_data.specs.StandsFor.{named_scope, text_at};
ghost use Rattle.scope_analysis.specs.Scopes.{callee_names};
ghost use Rattle.scope_analysis.specs.Walked.{ScopesFit};
ghost use Rattle.emit_exprs.specs.Rising.{Rises};
ghost use Rattle.emit_stmts.specs.Declares as defined;
ghost use Rattle.emit_stmts.specs.Positions.{position_of, state};
ghost use Rattle.emit_functions.specs.FunctionCode.{Drafted, FunctionMade, FunctionWritten, IsFunctionStencil};

use crate::bodies::emit_body;
use crate::params::{params, specials};
use crate::sites::{ROOM, bindings_of, site_under};
use bytecode_buf::{CodeBuf, Wait};
use emit_exprs::Site;
use emit_stmts::scoping::chain_inside;
use emit_stmts::{Draft, StmtContext};
use script_grammar::tree::{Func, Param};
use std::alloc::{AllocError, Global};
use stencil_data::{Chain, Extent, FuncKind, FunctionStencil, ScopeData, Text};

// Whether a function has a scope of its name.
fn has_callee(kind: FuncKind, name: Option<u32>) -> bool
    ensures { (texts : List (List ℕ)) → result ≡ defined.declares (callee_names kind (option_map (text_at texts) name)) }
{
    match kind {
        FuncKind::Expression => name.is_some(),
        _ => false,
    }
}

// The number of the parameters, in 32 bits.
fn param_count(params: &[Param]) -> u32
    ensures { length params.now < 2 ^ 32 → result ≡ length params.now }
{
    let count = params.len();
    if count < 0x1_0000_0000 {
        count as u32
    } else {
        u32::MAX
    }
}

// Appends the code of a function whose own scope has this number, and is the innermost one here.
fn emit_function(
    out: &mut Draft,
    waits: &mut Vec<Wait>,
    site: &StmtContext,
    func: &Func,
    number: usize,
) -> Result<(), AllocError>
    requires links { length site.now.exprs.chain.now ≤ 60002 }
    requires next { out.old.next ≡ number + 1 }
    ensures { OnOk result (FunctionWritten (position_of site.now) (state out.old waits.old.items) (state out.new waits.new.items) number func.now) }
{
    specials(&mut out.code, &site.exprs, bindings_of(site, number))?;
    params(&mut out.code, &site.exprs, &func.params)?;
    emit_body(out, waits, site, &func.params, &func.body)?;
    Ok(())
}

// The code of a function whose own scope has this number, and stands in the innermost one here.
fn draft_inside(site: &StmtContext, func: &Func, number: usize) -> Result<Draft, AllocError>
    requires links { length site.now.exprs.chain.now ≤ 60001 }
    requires first { number < 2 }
    ensures { IfOk result (λ draft. FunctionMade (position_of site.now) draft.code draft.notes.items number func.now) }
{
    let alloc = site.exprs.alloc;
    let chain = chain_inside(site, number)?;
    let inside = site_under(site, &chain);
    let mut out = Draft {
        code: CodeBuf::new(alloc),
        notes: Vec::new(alloc),
        next: number + 1,
    };
    let mut waits = Vec::new(alloc);
    emit_function(&mut out, &mut waits, &inside, func, number)?;
    Ok(out)
}

// The code of a function with these scopes and inner functions.
fn draft_function<'a>(
    alloc: Global,
    func: &Func,
    kind: FuncKind,
    name: Option<u32>,
    scopes: &'a [ScopeData],
    inner: &'a [Extent],
    chain: &'a Chain,
    texts: &'a [Text],
) -> Result<Draft, AllocError>
    requires chain { ChainFits 60000 chain.now }
    requires few_scopes { length scopes.now < 2 ^ 32 }
    requires slots { ScopesFit (map (named_scope texts.now) scopes.now) }
    requires few_inner { length inner.now < 2 ^ 32 }
    requires ordered { Rises 0 inner.now }
    ensures { IfOk result (λ draft. Drafted texts.now kind name scopes.now inner.now chain.now func.now draft.code draft.notes.items) }
{
    let exprs = Site {
        alloc,
        chain,
        texts,
        inner,
    };
    let outside = StmtContext {
        exprs,
        frames: &[],
        scopes,
        is_script: false,
        room: ROOM,
    };
    if has_callee(kind, name) {
        let named = chain_inside(&outside, 0)?;
        let site = site_under(&outside, &named);
        let draft = draft_inside(&site, func, 1)?;
        Ok(draft)
    } else {
        let draft = draft_inside(&outside, func, 0)?;
        Ok(draft)
    }
}

/// The stencil of a function under the chain of the scopes around it. Its kind and name are handed in, and the name in the
/// tree is not looked at; so are its scopes, and the extents of the functions directly in it, by rising start. Atoms are
/// indexes into `texts`. Of a function whose body was passed over nothing is said.
pub fn function(
    alloc: Global,
    func: &Func,
    kind: FuncKind,
    name: Option<u32>,
    scopes: Vec<ScopeData>,
    inner: Vec<Extent>,
    chain: &Chain,
    texts: &[Text],
) -> Result<FunctionStencil, AllocError>
    requires chain { ChainFits 60000 chain.now }
    requires few_scopes { length scopes.items < 2 ^ 32 }
    requires slots { ScopesFit (map (named_scope texts.now) scopes.items) }
    requires few_inner { length inner.items < 2 ^ 32 }
    requires ordered { Rises 0 inner.items }
    ensures { IfOk result (λ part. IsFunctionStencil texts.now kind name scopes.items inner.items chain.now func.now part) }
{
    let Draft {
        code,
        mut notes,
        next: _,
    } = draft_function(alloc, func, kind, name, &scopes, &inner, chain, texts)?;
    notes.shrink_to_fit();
    Ok(FunctionStencil {
        extent: Extent {
            start: func.start,
            end: func.end,
        },
        kind,
        name,
        params: param_count(&func.params),
        scopes,
        code: code.into_bytes(),
        notes,
        inner,
    })
}
