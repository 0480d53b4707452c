//! Kinds as numbers: the place of each variant in its enum.

ghost use Rattle.std.specs.Prelude.{◌≡◌};
ghost use Rattle.stencil_xdr_specs.specs.Image as image;
ghost use Rattle.stencil_xdr_write.specs.Numbers as numbers;

use crate::part::Part;
use crate::sink::Sink;
use std::alloc::AllocError;
use stencil_data::{BindKind, FuncKind, ScopeKind};

fn function_kind(kind: FuncKind) -> u64
    ensures { result ≡ image.function_kind kind }
{
    match kind {
        FuncKind::Declared => 0,
        FuncKind::Expression => 1,
        FuncKind::Arrow => 2,
        FuncKind::Method => 3,
        FuncKind::Getter => 4,
        FuncKind::Setter => 5,
    }
}

fn scope_kind(kind: ScopeKind) -> u64
    ensures { result ≡ image.scope_kind kind }
{
    match kind {
        ScopeKind::Global => 0,
        ScopeKind::Function => 1,
        ScopeKind::FunctionLexical => 2,
        ScopeKind::Lexical => 3,
        ScopeKind::SimpleCatch => 4,
        ScopeKind::StrictNamedLambda => 5,
        ScopeKind::FunctionBodyVar => 6,
    }
}

fn bind_kind(kind: BindKind) -> u64
    ensures { result ≡ image.bind_kind kind }
{
    match kind {
        BindKind::Param => 0,
        BindKind::Var => 1,
        BindKind::Let => 2,
        BindKind::Const => 3,
        BindKind::Function => 4,
        BindKind::Catch => 5,
        BindKind::Callee => 6,
        BindKind::Arguments => 7,
        BindKind::This => 8,
    }
}

impl Part for FuncKind {
    ghost items = { numbers.function_kind_items };

    ghost fits = { numbers.Always };

    fn hand<S: Sink>(&self, sink: &mut S) -> Result<(), AllocError> {
        sink.number(1, function_kind(*self))
    }
}

impl Part for ScopeKind {
    ghost items = { numbers.scope_kind_items };

    ghost fits = { numbers.Always };

    fn hand<S: Sink>(&self, sink: &mut S) -> Result<(), AllocError> {
        sink.number(1, scope_kind(*self))
    }
}

impl Part for BindKind {
    ghost items = { numbers.bind_kind_items };

    ghost fits = { numbers.Always };

    fn hand<S: Sink>(&self, sink: &mut S) -> Result<(), AllocError> {
        sink.number(1, bind_kind(*self))
    }
}
