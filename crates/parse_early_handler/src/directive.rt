//! The directives at the head of a body.

use crate::shape::Shape;

/// What a statement is among the directives at the head of a body: leading statements that are one string without
/// parentheses (ECMA-262, 12th edition, 11.2.1).
#[derive(Clone, Copy)]
pub enum Directive {
    /// No directive: none stands after it.
    No,
    /// A directive that is not `use strict`, or is spelled with a backslash.
    Other,
    /// `use strict`, at this offset, in bytes.
    Strict(u32),
}

impl Directive {
    ghost use Rattle.std.specs.Prelude.{◌≡◌};
    ghost use Rattle.parse_early_handler.specs.Directives.{ends, string_directive, strict_at};

    /// The directive that an expression of this form is, which starts at this offset.
    pub fn of(shape: Shape, start: u32) -> Directive
        ensures { result ≡ string_directive shape start }
    {
        match shape {
            Shape::Str { strict: true } => Directive::Strict(start),
            Shape::Str { strict: false } => Directive::Other,
            _ => Directive::No,
        }
    }

    /// Whether no directive stands after this.
    pub fn ends(self) -> bool
        ensures { result ≡ ends self }
    {
        match self {
            Directive::No => true,
            Directive::Other => false,
            Directive::Strict(_) => false,
        }
    }

    /// Where `use strict` stands.
    pub fn strict_at(self) -> Option<u32>
        ensures { result ≡ strict_at self }
    {
        match self {
            Directive::No => None,
            Directive::Other => None,
            Directive::Strict(at) => Some(at),
        }
    }
}
