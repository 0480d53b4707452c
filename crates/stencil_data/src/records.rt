//! What is kept of a function that was parsed and not compiled.
use crate::functions::{Extent, FuncKind};
use std::marker::Model;

/// A name that an inner function closes over: the text `atom`, in the function's scope of this number.
#[derive(Debug, Clone, Copy, PartialEq, Eq)]
pub struct ClosedName {
    pub scope: u32,
    pub atom: u32,
}

/// A function that is not compiled. `inner` has the numbers of the functions directly in it, by rising
/// start; `closed` its names that inner functions close over.
#[derive(Debug, Clone, Drop)]
pub struct LazyRecord {
    pub extent: Extent,
    pub kind: FuncKind,
    pub name: Option<u32>,
    pub inner: Vec<u32>,
    pub closed: Vec<ClosedName>,
}

impl Model for LazyRecord {
    ghost use Rattle.stencil_data.specs.Views.{RecordView};

    ghost Value = { RecordView };

    ghost view = { λ lazy. record {
      extent = lazy.extent;
      kind = lazy.kind;
      name = lazy.name;
      inner = lazy.inner.items;
      closed =
          lazy.closed.items;
    } };
}
