//! The plain data of compiled scripts: texts, scopes, chains of scopes, and the parts of a stencil.
//!
//! This crate is the lowest of the compiler: every other one hands on values of these types. It
//! computes nothing but texts and chains. Names are atoms, indexes into a list of texts beside the
//! value; a chain alone carries its texts with it, since it goes from one list of texts to another.
//!
//! Contracts see each struct that holds a `Vec` as a record of the same fields with lists in their
//! place (`specs/Views.antt`), a [`Text`] as the list of its units and a [`Chain`] as the list of its
//! links, innermost first.
//!
//! `specs/` also has what every crate above speaks of: values with texts in place of atoms
//! (`Named.antt`), when numbered parts stand for such values (`StandsFor.antt`), where a name lives
//! on a chain (`Resolve.antt`), and the slots of a scope's bindings (`Slots.antt`).
#![tactic(auto)]

pub mod chains;
pub mod functions;
mod indexed_link;
pub mod records;
pub mod scopes;
pub mod stencils;
pub mod texts;

pub use chains::{Chain, Link, LinkName};
pub use functions::{Extent, FuncKind};
pub use records::{ClosedName, LazyRecord};
pub use scopes::{BindKind, Binding, Place, ScopeData, ScopeKind, Slot};
pub use stencils::{Entry, FunctionStencil, InitialParts, MergedStencil, TryNote};
pub use texts::Text;
