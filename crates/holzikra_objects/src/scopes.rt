//! Values of scopes and bindings.

ghost use Rattle.std.specs.Prelude.{◌≡◌, map, IfOk};
ghost use Rattle.serde_json.specs.View.{view};
ghost use Rattle.stencil_data.specs.StandsFor.{named_binding, named_bindings, named_scope};
ghost use Rattle.script_image.specs.ScopeLines as lines;
ghost use Rattle.holzikra_objects.specs.Objects as objects;

use crate::lists::{list, only, whole};
use crate::texts::{text_at, text_value};
use holzikra_json::Members;
use serde_json::Value;
use std::alloc::{AllocError, Global};
use stencil_data::{BindKind, Binding, ScopeData, ScopeKind, Slot, Text};

fn scope_name(kind: ScopeKind) -> &'static str
    ensures { result.now ≡ lines.scope_name kind }
{
    match kind {
        ScopeKind::Global => "Global",
        ScopeKind::Function => "Function",
        ScopeKind::FunctionLexical => "FunctionLexical",
        ScopeKind::Lexical => "Lexical",
        ScopeKind::SimpleCatch => "SimpleCatch",
        ScopeKind::StrictNamedLambda => "StrictNamedLambda",
        ScopeKind::FunctionBodyVar => "FunctionBodyVar",
    }
}

fn binding_name(kind: BindKind) -> &'static str
    ensures { result.now ≡ lines.binding_name kind }
{
    match kind {
        BindKind::Param => "param",
        BindKind::Var => "var",
        BindKind::Let => "let",
        BindKind::Const => "const",
        BindKind::Function => "function",
        BindKind::Catch => "catch",
        BindKind::Callee => "callee",
        BindKind::Arguments => "arguments",
        BindKind::This => "this",
    }
}

/// Where a binding's value lives.
fn slot_value(alloc: Global, slot: Slot) -> Result<Value, AllocError>
    ensures { IfOk result (λ value. view value ≡ objects.slot_data slot) }
{
    let value = match slot {
        Slot::Global => Value::try_from_str(alloc, "global")?,
        Slot::Arg(index) => only(alloc, "arg", whole(u64::from(index)))?,
        Slot::Frame(index) => only(alloc, "frame", whole(u64::from(index)))?,
        Slot::Env(index) => only(alloc, "env", whole(u64::from(index)))?,
        Slot::Callee => Value::try_from_str(alloc, "callee")?,
    };
    Ok(value)
}

/// The value of a binding.
fn binding_value(alloc: Global, texts: &[Text], binding: Binding) -> Result<Value, AllocError>
    ensures { IfOk result (λ value. view value ≡ objects.binding_data (named_binding texts.now binding)) }
{
    let mut members = Members::new(alloc);
    members.text("declared", binding_name(binding.kind))?;
    let name = text_value(alloc, text_at(texts, u64::from(binding.atom)))?;
    members.put("name", name)?;
    let place = slot_value(alloc, binding.slot)?;
    members.put("place", place)?;
    Ok(members.object())
}

/// The list of bindings.
fn bindings_value(alloc: Global, texts: &[Text], bindings: &[Binding]) -> Result<Value, AllocError>
    ensures { IfOk result (λ value. view value ≡ objects.list (map objects.binding_data (named_bindings texts.now bindings.now))) }
{
    let mut values = Vec::new(alloc);
    for binding in bindings {
        values.push(binding_value(alloc, texts, *binding)?)?;
    }
    Ok(list(values))
}

/// The value of the scope of this number.
fn scope_value(
    alloc: Global,
    texts: &[Text],
    number: usize,
    scope: &ScopeData,
) -> Result<Value, AllocError>
    ensures { IfOk result (λ value. view value ≡ objects.scope_data number (named_scope texts.now scope.now)) }
{
    let mut members = Members::new(alloc);
    members.number("env", Some(u64::from(scope.env_slots)))?;
    members.text("kind", scope_name(scope.kind))?;
    members.number("number", Some(number as u64))?;
    members.put("parent", parent_value(scope.parent))?;
    let bindings = bindings_value(alloc, texts, &scope.bindings)?;
    members.put("bindings", bindings)?;
    Ok(members.object())
}

/// The number of the scope around, or null.
fn parent_value(parent: Option<u32>) -> Value
    ensures { view result ≡ objects.parent_data parent }
{
    match parent {
        None => Value::Null,
        Some(number) => whole(u64::from(number)),
    }
}

/// The list of scopes.
pub(crate) fn scopes_value(
    alloc: Global,
    texts: &[Text],
    scopes: &[ScopeData],
) -> Result<Value, AllocError>
    ensures { IfOk result (λ value. view value ≡ objects.list (objects.scopes_data 0 (map (named_scope texts.now) scopes.now))) }
{
    let mut values = Vec::new(alloc);
    for (number, scope) in scopes.iter().enumerate() {
        values.push(scope_value(alloc, texts, number, scope)?)?;
    }
    Ok(list(values))
}
