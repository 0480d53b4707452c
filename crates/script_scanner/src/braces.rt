//! The open braces of a text.

/// What an open brace belongs to.
#[derive(Clone, Copy, Debug, PartialEq, Eq)]
pub enum Brace {
    /// A block, a body or an object: the mark `{`.
    Block,
    /// An expression in a template: `${`.
    Substitution,
}
