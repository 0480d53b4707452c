//! A script with a function in a function, merged in both orders, and listed.

use script_image::{code_text, scope_text};
use std::alloc::{AllocError, Global};
use std::test::Fail;
use stencil_data::{
    BindKind, Binding, ClosedName, Extent, FuncKind, FunctionStencil, InitialParts, LazyRecord,
    ScopeData, ScopeKind, Slot, Text,
};
use stencil_merge::Merger;

fn extent(start: u32, end: u32) -> Extent {
    Extent { start, end }
}

fn texts(alloc: Global, units: &[u16]) -> Result<Vec<Text>, AllocError> {
    let mut texts = Vec::new(alloc);
    for unit in units {
        texts.push(Text::of(alloc, &[*unit])?)?;
    }
    Ok(texts)
}

// A scope with one name.
fn scope(alloc: Global, atom: u32) -> Result<ScopeData, AllocError> {
    let binding = Binding {
        atom,
        kind: BindKind::Let,
        slot: Slot::Env(0),
    };
    Ok(ScopeData {
        kind: ScopeKind::Function,
        parent: None,
        bindings: Vec::from_slice(alloc, &[binding])?,
        env_slots: 1,
    })
}

fn function(
    alloc: Global,
    at: Extent,
    name: Option<u32>,
    code: &[u8],
    inner: &[Extent],
) -> Result<FunctionStencil, AllocError> {
    let mut scopes = Vec::new(alloc);
    scopes.push(scope(alloc, 0)?)?;
    Ok(FunctionStencil {
        extent: at,
        kind: FuncKind::Expression,
        name,
        params: 0,
        scopes,
        code: Vec::from_slice(alloc, code)?,
        notes: Vec::new(alloc),
        inner: Vec::from_slice(alloc, inner)?,
    })
}

fn lazy(alloc: Global, at: Extent, name: u32, inner: &[u32]) -> Result<LazyRecord, AllocError> {
    let closed = ClosedName { scope: 0, atom: 0 };
    Ok(LazyRecord {
        extent: at,
        kind: FuncKind::Expression,
        name: Some(name),
        inner: Vec::from_slice(alloc, inner)?,
        closed: Vec::from_slice(alloc, &[closed])?,
    })
}

// The texts `a`, `f` and `a` again; the script names the last and makes its second function, which is the third of all: the
// second is in the first.
fn parts(alloc: Global) -> Result<InitialParts, AllocError> {
    let code = [57, 2, 0, 0, 0, 87, 1, 0, 0, 0, 100];
    let mut records = Vec::new(alloc);
    records.push(lazy(alloc, extent(10, 30), 1, &[2])?)?;
    records.push(lazy(alloc, extent(15, 20), 0, &[])?)?;
    records.push(lazy(alloc, extent(40, 50), 2, &[])?)?;
    Ok(InitialParts {
        texts: texts(alloc, &[0x61, 0x66, 0x61])?,
        top: function(
            alloc,
            extent(0, 60),
            None,
            &code,
            &[extent(10, 30), extent(40, 50)],
        )?,
        records,
    })
}

// The first function: it is `f`, names `y` and `a`, and makes the function in it.
fn outer(alloc: Global) -> Result<FunctionStencil, AllocError> {
    let code = [57, 0, 0, 0, 0, 20, 2, 0, 0, 0, 87, 0, 0, 0, 0, 98];
    function(alloc, extent(10, 30), Some(1), &code, &[extent(15, 20)])
}

// The function in it: it is `g`, and names `y`.
fn inner(alloc: Global) -> Result<FunctionStencil, AllocError> {
    function(alloc, extent(15, 20), Some(0), &[57, 1, 0, 0, 0, 98], &[])
}

fn add(
    alloc: Global,
    merger: &mut Merger,
    stencil: &FunctionStencil,
    number: u32,
    units: &[u16],
) -> Result<(), AllocError> {
    let texts = texts(alloc, units)?;
    if merger.text_count() > 100
        || texts.len() > 100
        || number == 0
        || merger.function_count() < number as usize
    {
        return Err(AllocError);
    }
    merger.add(alloc, number, stencil, &texts)
}

fn begun(alloc: Global) -> Result<Merger, AllocError> {
    let parts = parts(alloc)?;
    if parts.texts.len() > 100 || parts.records.len() > 100 {
        return Err(AllocError);
    }
    Merger::new(alloc, &parts)
}

/// Adds the first function.
fn add_outer(alloc: Global, merger: &mut Merger) -> Result<(), AllocError> {
    add(alloc, merger, &outer(alloc)?, 1, &[0x79, 0x66, 0x61])
}

/// Adds the function in it, under this number.
fn add_inner(alloc: Global, merger: &mut Merger, number: u32) -> Result<(), AllocError> {
    add(alloc, merger, &inner(alloc)?, number, &[0x67, 0x79])
}

/// The code of what was merged, and then its scopes.
fn listed(alloc: Global, merger: Merger) -> Result<Vec<u8>, AllocError> {
    let merged = merger.finish();
    let mut out = Vec::new(alloc);
    code_text(&mut out, &merged)?;
    scope_text(&mut out, &merged)?;
    Ok(out)
}

const BOTH: &[u8] = b"script 0 top 0..60
  00000 GetGName \"a\"
  00005 Lambda 3
  00010 RetRval
script 1 function 10..30 \"f\"
  00000 GetGName \"y\"
  00005 String \"a\"
  00010 Lambda 2
  00015 Return
script 2 function 15..20 \"g\"
  00000 GetGName \"y\"
  00005 Return
script 3 lazy 40..50 \"a\" inner - closed 0:\"a\"
script 0 top 0..60
  scope 0 Function parent - env 1
    \"a\" let env 0
script 1 function 10..30 \"f\"
  scope 0 Function parent - env 1
    \"y\" let env 0
script 2 function 15..20 \"g\"
  scope 0 Function parent - env 1
    \"g\" let env 0
script 3 lazy 40..50 \"a\" inner - closed 0:\"a\"
";

#[test]
fn either_order(rt: HostRuntime) -> Result<(), Fail> {
    let alloc = rt.alloc();
    let mut one = begun(alloc)?;
    add_outer(alloc, &mut one)?;
    add_inner(alloc, &mut one, 2)?;
    assert!(rt; listed(alloc, one)?.as_slice() == BOTH);
    let mut two = begun(alloc)?;
    add_inner(alloc, &mut two, 2)?;
    add_outer(alloc, &mut two)?;
    assert!(rt; listed(alloc, two)?.as_slice() == BOTH);
    Ok(())
}

const FIRST: &[u8] = b"script 0 top 0..60
  00000 GetGName \"a\"
  00005 Lambda 3
  00010 RetRval
script 1 function 10..30 \"f\"
  00000 GetGName \"y\"
  00005 String \"a\"
  00010 Lambda 2
  00015 Return
script 2 lazy 15..20 \"a\" inner - closed 0:\"a\"
script 3 lazy 40..50 \"a\" inner - closed 0:\"a\"
script 0 top 0..60
  scope 0 Function parent - env 1
    \"a\" let env 0
script 1 function 10..30 \"f\"
  scope 0 Function parent - env 1
    \"y\" let env 0
script 2 lazy 15..20 \"a\" inner - closed 0:\"a\"
script 3 lazy 40..50 \"a\" inner - closed 0:\"a\"
";

// What is added as the first function again changes nothing.
#[test]
fn added_twice(rt: HostRuntime) -> Result<(), Fail> {
    let alloc = rt.alloc();
    let mut merger = begun(alloc)?;
    let begun = merger.text_count();
    add_outer(alloc, &mut merger)?;
    let once = merger.text_count();
    add_inner(alloc, &mut merger, 1)?;
    assert!(rt; (begun, once, merger.text_count()) == (2, 3, 3));
    assert!(rt; listed(alloc, merger)?.as_slice() == FIRST);
    Ok(())
}
