//! Compiled functions and scripts.
use crate::functions::{Extent, FuncKind};
use crate::records::LazyRecord;
use crate::scopes::ScopeData;
use crate::texts::Text;
use std::marker::Model;

/// While the offset is in `start..end`, a throw goes to `end` with `depth` values on the stack.
#[derive(Debug, Clone, Copy, PartialEq, Eq)]
pub struct TryNote {
    pub start: u64,
    pub end: u64,
    pub depth: u32,
}

/// A compiled function, or the script itself. The operand of a `Lambda` in its code is an index into
/// `inner`, the extents of the functions directly in it by rising start; in a [`MergedStencil`] it is
/// the function's number.
#[derive(Debug, Clone, Drop)]
pub struct FunctionStencil {
    pub extent: Extent,
    pub kind: FuncKind,
    pub name: Option<u32>,
    pub params: u32,
    pub scopes: Vec<ScopeData>,
    pub code: Vec<u8>,
    pub notes: Vec<TryNote>,
    pub inner: Vec<Extent>,
}

impl Model for FunctionStencil {
    ghost use Rattle.stencil_data.specs.Views.{FunctionView};

    ghost Value = { FunctionView };

    ghost view = { λ stencil. record {
      extent = stencil.extent;
      kind = stencil.kind;
      name = stencil.name;
      params = stencil.params;
      scopes =
          stencil.scopes.items;
      code = stencil.code.items;
      notes = stencil.notes.items;
      inner = stencil.inner.items;
    } };
}

/// A script compiled lazily: the code of its top, and a record for every function. `records[i]` belongs
/// to function `i + 1`; the script is 0. Atoms are indexes into `texts`.
#[derive(Debug, Clone, Drop)]
pub struct InitialParts {
    pub texts: Vec<Text>,
    pub top: FunctionStencil,
    pub records: Vec<LazyRecord>,
}

impl Model for InitialParts {
    ghost use Rattle.stencil_data.specs.Views.{InitialView};

    ghost Value = { InitialView };

    ghost view = { λ parts. record { texts = parts.texts.items; top = parts.top; records = parts.records.items } };
}

/// What a merged stencil has of a function.
#[derive(Debug, Clone, Drop)]
pub enum Entry {
    Lazy,
    Compiled(FunctionStencil),
}

/// A script with some of its functions compiled. `records[i]` and `entries[i]` belong to function
/// `i + 1`. Atoms, in code too, are indexes into `texts`.
#[derive(Debug, Clone, Drop)]
pub struct MergedStencil {
    pub texts: Vec<Text>,
    pub top: FunctionStencil,
    pub records: Vec<LazyRecord>,
    pub entries: Vec<Entry>,
}

impl Model for MergedStencil {
    ghost use Rattle.stencil_data.specs.MergedView.{MergedView};

    ghost Value = { MergedView };

    ghost view = { λ merged. record {
      texts = merged.texts.items;
      top = merged.top;
      records = merged.records.items;
      entries =
          merged.entries.items;
    } };
}
