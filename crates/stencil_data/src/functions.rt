//! Where a function stands in its file, and what kind of function it is.

/// A part of a file: the byte offsets `start..end`, without the end.
#[derive(Debug, Clone, Copy, PartialEq, Eq)]
pub struct Extent {
    pub start: u32,
    pub end: u32,
}

/// How a function is written: ECMA-262 clauses 15.2 (declarations and expressions), 15.3 (arrow
/// functions) and 15.4 (methods, getters and setters).
#[derive(Debug, Clone, Copy, PartialEq, Eq)]
pub enum FuncKind {
    Declared,
    Expression,
    Arrow,
    Method,
    Getter,
    Setter,
}
