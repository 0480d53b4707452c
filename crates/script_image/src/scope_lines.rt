//! The lines of a script's scopes: one for each scope, and under it one for each binding.

ghost use Rattle.std.specs.Prelude.{◌≡◌, ◌++◌, map, flat_map, OnOk};
ghost use Rattle.std.specs.Fmt.{decimal};
ghost use Rattle.stencil_data.specs.StandsFor.{named_binding, named_bindings, named_scope};
ghost use Rattle.script_image.specs.Listed.{listed_script};
ghost use Rattle.script_image.specs.ScopeLines as lines;

use crate::chunk::{Chunk, flush, put, put_byte};
use crate::quoted::{put_decimal, put_quoted, text_at};
use std::alloc::AllocError;
use stencil_data::{BindKind, Binding, FunctionStencil, ScopeData, ScopeKind, Slot, Text};

fn scope_name(kind: ScopeKind) -> &'static str
    ensures { result.now ≡ lines.scope_name kind }
{
    match kind {
        ScopeKind::Global => "Global",
        ScopeKind::Function => "Function",
        ScopeKind::FunctionLexical => "FunctionLexical",
        ScopeKind::Lexical => "Lexical",
        ScopeKind::SimpleCatch => "SimpleCatch",
        ScopeKind::StrictNamedLambda => "StrictNamedLambda",
        ScopeKind::FunctionBodyVar => "FunctionBodyVar",
    }
}

fn binding_name(kind: BindKind) -> &'static str
    ensures { result.now ≡ lines.binding_name kind }
{
    match kind {
        BindKind::Param => "param",
        BindKind::Var => "var",
        BindKind::Let => "let",
        BindKind::Const => "const",
        BindKind::Function => "function",
        BindKind::Catch => "catch",
        BindKind::Callee => "callee",
        BindKind::Arguments => "arguments",
        BindKind::This => "this",
    }
}

/// Puts a word and a number after a chunk.
fn put_counted(
    out: &mut Vec<u8>,
    chunk: &mut Chunk,
    word: &[u8],
    number: u32,
) -> Result<(), AllocError>
    ensures { OnOk result (out.new.items ++ chunk.new.items ≡ (out.old.items ++ chunk.old.items) ++ (word.now ++ decimal number)) }
{
    put(out, chunk, word)?;
    put_decimal(out, chunk, u64::from(number))
}

/// Puts where a binding's value lives after a chunk.
fn put_slot(out: &mut Vec<u8>, chunk: &mut Chunk, slot: Slot) -> Result<(), AllocError>
    ensures { OnOk result (out.new.items ++ chunk.new.items ≡ (out.old.items ++ chunk.old.items) ++ lines.slot_text slot) }
{
    match slot {
        Slot::Global => put(out, chunk, b"global"),
        Slot::Arg(index) => put_counted(out, chunk, b"arg ", index),
        Slot::Frame(index) => put_counted(out, chunk, b"frame ", index),
        Slot::Env(index) => put_counted(out, chunk, b"env ", index),
        Slot::Callee => put(out, chunk, b"callee"),
    }
}

/// Puts the line of a binding after a chunk.
fn put_binding(
    out: &mut Vec<u8>,
    chunk: &mut Chunk,
    texts: &[Text],
    binding: Binding,
) -> Result<(), AllocError>
    ensures { OnOk result (out.new.items ++ chunk.new.items ≡ (out.old.items ++ chunk.old.items) ++ lines.binding_line (named_binding texts.now binding)) }
{
    put(out, chunk, b"    ")?;
    put_quoted(out, chunk, text_at(texts, u64::from(binding.atom)))?;
    put_byte(out, chunk, b' ')?;
    put(out, chunk, binding_name(binding.kind).as_bytes())?;
    put_byte(out, chunk, b' ')?;
    put_slot(out, chunk, binding.slot)?;
    put_byte(out, chunk, b'\n')
}

fn put_bindings(
    out: &mut Vec<u8>,
    chunk: &mut Chunk,
    texts: &[Text],
    bindings: &[Binding],
) -> Result<(), AllocError>
    ensures { OnOk result (out.new.items ++ chunk.new.items ≡ (out.old.items ++ chunk.old.items) ++ flat_map lines.binding_line (named_bindings texts.now bindings.now)) }
{
    for binding in bindings {
        put_binding(out, chunk, texts, *binding)?;
    }
    Ok(())
}

/// Puts the number of the scope around after a chunk, or `-` where there is none.
fn put_parent(out: &mut Vec<u8>, chunk: &mut Chunk, parent: Option<u32>) -> Result<(), AllocError>
    ensures { OnOk result (out.new.items ++ chunk.new.items ≡ (out.old.items ++ chunk.old.items) ++ lines.parent_text parent) }
{
    match parent {
        None => put_byte(out, chunk, b'-'),
        Some(number) => put_decimal(out, chunk, u64::from(number)),
    }
}

/// Puts the line of the scope of this number after a chunk.
fn put_scope_line(
    out: &mut Vec<u8>,
    chunk: &mut Chunk,
    texts: &[Text],
    number: usize,
    scope: &ScopeData,
) -> Result<(), AllocError>
    ensures { OnOk result (out.new.items ++ chunk.new.items ≡ (out.old.items ++ chunk.old.items) ++ lines.scope_line number (named_scope texts.now scope.now)) }
{
    put(out, chunk, b"  scope ")?;
    put_decimal(out, chunk, number as u64)?;
    put_byte(out, chunk, b' ')?;
    put(out, chunk, scope_name(scope.kind).as_bytes())?;
    put(out, chunk, b" parent ")?;
    put_parent(out, chunk, scope.parent)?;
    put(out, chunk, b" env ")?;
    put_decimal(out, chunk, u64::from(scope.env_slots))?;
    put_byte(out, chunk, b'\n')
}

fn put_scope_list(
    out: &mut Vec<u8>,
    chunk: &mut Chunk,
    texts: &[Text],
    scopes: &[ScopeData],
) -> Result<(), AllocError>
    ensures { OnOk result (out.new.items ++ chunk.new.items ≡ (out.old.items ++ chunk.old.items) ++ lines.scopes_from 0 (map (named_scope texts.now) scopes.now)) }
{
    for (number, scope) in scopes.iter().enumerate() {
        put_scope_line(out, chunk, texts, number, scope)?;
        put_bindings(out, chunk, texts, &scope.bindings)?;
    }
    Ok(())
}

/// Appends what stands under the line of a compiled script for its scopes.
pub(crate) fn append_scopes(
    out: &mut Vec<u8>,
    texts: &[Text],
    script: &FunctionStencil,
) -> Result<(), AllocError>
    ensures { OnOk result (out.new.items ≡ out.old.items ++ lines.scope_lines (listed_script texts.now script.now)) }
{
    let mut chunk = Chunk::new();
    put_scope_list(out, &mut chunk, texts, &script.scopes)?;
    flush(out, &mut chunk)
}
