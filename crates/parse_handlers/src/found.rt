//! The functions that were found in a part of a script, and how they are gathered.

use stencil_data::{Extent, FuncKind};

/// A function: its extent, its kind, the atom of its name, and the functions directly in it, which are those in its
/// parameters' initializers and, where it is an arrow with an expression as body, those in that body.
#[derive(Drop)]
pub struct FoundFunction {
    pub extent: Extent,
    pub kind: FuncKind,
    pub name: Option<u32>,
    /// Its body stands in braces, whether it was read or passed over.
    pub braced: bool,
    /// None of its parameters has an initializer, and none is a rest parameter (ECMA-262, 15.1.3:
    /// IsSimpleParameterList).
    pub simple: bool,
    pub inner: Vec<FoundFunction>,
}

/// The functions directly in an expression, a statement or a property, by rising start.
#[derive(Drop)]
pub struct SyntaxNode {
    pub found: Vec<FoundFunction>,
}

/// The functions directly in a body, by rising start.
#[derive(Drop)]
pub struct SyntaxBody {
    pub found: Vec<FoundFunction>,
}
