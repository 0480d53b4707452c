//! The parts of functions: kinds, bindings, scopes, notes and codes.

ghost use Rattle.std.specs.Prelude.{◌≡◌, IfSome, IfNone};
ghost use Rattle.stencil_xdr_specs.specs.Image as image;
ghost use Rattle.stencil_xdr_read.specs.Parts as parts;
ghost use Rattle.stencil_xdr_read.specs.UniqueParts as unique_parts;

use crate::fault::ImageFault;
use crate::list::List;
use crate::part::{Part, Reader};
use std::alloc::Global;
use std::marker::Model;
use stencil_data::{
    BindKind, Binding, ClosedName, Entry, Extent, FuncKind, FunctionStencil, LazyRecord, ScopeData,
    ScopeKind, Slot, Text, TryNote,
};

impl Part for Text {
    ghost bytes = { parts.text_bytes };

    ghost fits = { parts.FitText };

    ghost unique = { unique_parts.unique_texts };

    fn read(alloc: Global, reader: &mut Reader<'_>) -> Result<Text, ImageFault> {
        let units = List::<u16>::read(alloc, reader)?;
        let units = units.into_items();
        let text = Text::of(alloc, &units)?;
        Ok(text)
    }
}

impl Part for Extent {
    ghost bytes = { parts.extent_bytes };

    ghost fits = { parts.FitExtent };

    ghost unique = { unique_parts.unique_extents };

    fn read(alloc: Global, reader: &mut Reader<'_>) -> Result<Extent, ImageFault> {
        let (start, end) = <(u32, u32)>::read(alloc, reader)?;
        Ok(Extent { start, end })
    }
}

fn function_kind(byte: u8) -> Option<FuncKind>
    ensures some { IfSome result (λ kind. image.function_kind kind ≡ byte) }
    ensures none { IfNone result ((kind : parts.FunctionKind) → image.function_kind kind ≡ byte → ⊥) }
{
    match byte {
        0 => Some(FuncKind::Declared),
        1 => Some(FuncKind::Expression),
        2 => Some(FuncKind::Arrow),
        3 => Some(FuncKind::Method),
        4 => Some(FuncKind::Getter),
        5 => Some(FuncKind::Setter),
        _ => None,
    }
}

impl Part for FuncKind {
    ghost bytes = { parts.function_kind_bytes };

    ghost fits = { parts.Always };

    ghost unique = { unique_parts.unique_function_kinds };

    fn read(alloc: Global, reader: &mut Reader<'_>) -> Result<FuncKind, ImageFault> {
        let byte = u8::read(alloc, reader)?;
        match function_kind(byte) {
            None => Err(ImageFault::NoImage),
            Some(kind) => Ok(kind),
        }
    }
}

fn scope_kind(byte: u8) -> Option<ScopeKind>
    ensures some { IfSome result (λ kind. image.scope_kind kind ≡ byte) }
    ensures none { IfNone result ((kind : parts.KindOfScope) → image.scope_kind kind ≡ byte → ⊥) }
{
    match byte {
        0 => Some(ScopeKind::Global),
        1 => Some(ScopeKind::Function),
        2 => Some(ScopeKind::FunctionLexical),
        3 => Some(ScopeKind::Lexical),
        4 => Some(ScopeKind::SimpleCatch),
        5 => Some(ScopeKind::StrictNamedLambda),
        6 => Some(ScopeKind::FunctionBodyVar),
        _ => None,
    }
}

impl Part for ScopeKind {
    ghost bytes = { parts.scope_kind_bytes };

    ghost fits = { parts.Always };

    ghost unique = { unique_parts.unique_scope_kinds };

    fn read(alloc: Global, reader: &mut Reader<'_>) -> Result<ScopeKind, ImageFault> {
        let byte = u8::read(alloc, reader)?;
        match scope_kind(byte) {
            None => Err(ImageFault::NoImage),
            Some(kind) => Ok(kind),
        }
    }
}

fn bind_kind(byte: u8) -> Option<BindKind>
    ensures some { IfSome result (λ kind. image.bind_kind kind ≡ byte) }
    ensures none { IfNone result ((kind : parts.KindOfBinding) → image.bind_kind kind ≡ byte → ⊥) }
{
    match byte {
        0 => Some(BindKind::Param),
        1 => Some(BindKind::Var),
        2 => Some(BindKind::Let),
        3 => Some(BindKind::Const),
        4 => Some(BindKind::Function),
        5 => Some(BindKind::Catch),
        6 => Some(BindKind::Callee),
        7 => Some(BindKind::Arguments),
        8 => Some(BindKind::This),
        _ => None,
    }
}

impl Part for BindKind {
    ghost bytes = { parts.bind_kind_bytes };

    ghost fits = { parts.Always };

    ghost unique = { unique_parts.unique_bind_kinds };

    fn read(alloc: Global, reader: &mut Reader<'_>) -> Result<BindKind, ImageFault> {
        let byte = u8::read(alloc, reader)?;
        match bind_kind(byte) {
            None => Err(ImageFault::NoImage),
            Some(kind) => Ok(kind),
        }
    }
}

impl Part for Slot {
    ghost bytes = { parts.slot_bytes };

    ghost fits = { parts.FitSlot };

    ghost unique = { unique_parts.unique_slots };

    fn read(alloc: Global, reader: &mut Reader<'_>) -> Result<Slot, ImageFault> {
        match u8::read(alloc, reader)? {
            0 => Ok(Slot::Global),
            1 => {
                let place = u32::read(alloc, reader)?;
                Ok(Slot::Arg(place))
            }
            2 => {
                let place = u32::read(alloc, reader)?;
                Ok(Slot::Frame(place))
            }
            3 => {
                let place = u32::read(alloc, reader)?;
                Ok(Slot::Env(place))
            }
            4 => Ok(Slot::Callee),
            _ => Err(ImageFault::NoImage),
        }
    }
}

impl Part for Binding {
    ghost bytes = { parts.binding_bytes };

    ghost fits = { parts.FitBinding };

    ghost unique = { unique_parts.unique_bindings };

    fn read(alloc: Global, reader: &mut Reader<'_>) -> Result<Binding, ImageFault> {
        let (atom, (kind, slot)) = <(u32, (BindKind, Slot))>::read(alloc, reader)?;
        Ok(Binding { atom, kind, slot })
    }
}

impl Part for ScopeData {
    ghost bytes = { parts.scope_bytes };

    ghost fits = { parts.FitScope };

    ghost unique = { unique_parts.unique_scopes };

    fn read(alloc: Global, reader: &mut Reader<'_>) -> Result<ScopeData, ImageFault> {
        let (kind, (parent, (bindings, env_slots))) = <(
            ScopeKind,
            (Option<u32>, (List<Binding>, u32)),
        )>::read(alloc, reader)?;
        let bindings = bindings.into_items();
        Ok(ScopeData {
            kind,
            parent,
            bindings,
            env_slots,
        })
    }
}

impl Part for TryNote {
    ghost bytes = { parts.note_bytes };

    ghost fits = { parts.FitNote };

    ghost unique = { unique_parts.unique_notes };

    fn read(alloc: Global, reader: &mut Reader<'_>) -> Result<TryNote, ImageFault> {
        let (start, (end, depth)) = <(u64, (u64, u32))>::read(alloc, reader)?;
        Ok(TryNote { start, end, depth })
    }
}

/// The bytes of a code after their count: contracts see the bytes.
#[derive(Drop)]
pub(crate) struct Code {
    bytes: Vec<u8>,
}

impl Model for Code {
    ghost use Rattle.std.specs.Prelude.{ℕ, List};

    ghost Value = { List ℕ };

    ghost view = { λ code. code.bytes.items };
}

impl Code {
    fn into_bytes(self) -> Vec<u8>
        ensures { result.items ≡ self }
    {
        let Code { bytes } = self;
        bytes
    }
}

impl Part for Code {
    ghost bytes = { parts.code_bytes };

    ghost fits = { parts.FitCode };

    ghost unique = { unique_parts.unique_codes };

    fn read(alloc: Global, reader: &mut Reader<'_>) -> Result<Code, ImageFault> {
        let count = u64::read(alloc, reader)?;
        match reader.take(count) {
            None => Err(ImageFault::NoImage),
            Some(front) => {
                let bytes = Vec::from_slice(alloc, front)?;
                Ok(Code { bytes })
            }
        }
    }
}

impl Part for FunctionStencil {
    ghost bytes = { parts.function_bytes };

    ghost fits = { parts.FitFunction };

    ghost unique = { unique_parts.unique_functions };

    fn read(alloc: Global, reader: &mut Reader<'_>) -> Result<FunctionStencil, ImageFault> {
        let (head, (scopes, (code, (notes, inner)))) = <(
            (Extent, (FuncKind, (Option<u32>, u32))),
            (List<ScopeData>, (Code, (List<TryNote>, List<Extent>))),
        )>::read(alloc, reader)?;
        let (extent, (kind, (name, params))) = head;
        let scopes = scopes.into_items();
        let code = code.into_bytes();
        let notes = notes.into_items();
        let inner = inner.into_items();
        Ok(FunctionStencil {
            extent,
            kind,
            name,
            params,
            scopes,
            code,
            notes,
            inner,
        })
    }
}

impl Part for ClosedName {
    ghost bytes = { parts.closed_bytes };

    ghost fits = { parts.FitClosed };

    ghost unique = { unique_parts.unique_closed };

    fn read(alloc: Global, reader: &mut Reader<'_>) -> Result<ClosedName, ImageFault> {
        let (scope, atom) = <(u32, u32)>::read(alloc, reader)?;
        Ok(ClosedName { scope, atom })
    }
}

impl Part for LazyRecord {
    ghost bytes = { parts.record_bytes };

    ghost fits = { parts.FitRecord };

    ghost unique = { unique_parts.unique_records };

    fn read(alloc: Global, reader: &mut Reader<'_>) -> Result<LazyRecord, ImageFault> {
        let (head, (inner, closed)) = <(
            (Extent, (FuncKind, Option<u32>)),
            (List<u32>, List<ClosedName>),
        )>::read(alloc, reader)?;
        let (extent, (kind, name)) = head;
        let inner = inner.into_items();
        let closed = closed.into_items();
        Ok(LazyRecord {
            extent,
            kind,
            name,
            inner,
            closed,
        })
    }
}

impl Part for Entry {
    ghost bytes = { parts.entry_bytes };

    ghost fits = { parts.FitEntry };

    ghost unique = { unique_parts.unique_entries };

    fn read(alloc: Global, reader: &mut Reader<'_>) -> Result<Entry, ImageFault> {
        match Option::<FunctionStencil>::read(alloc, reader)? {
            None => Ok(Entry::Lazy),
            Some(part) => Ok(Entry::Compiled(part)),
        }
    }
}
