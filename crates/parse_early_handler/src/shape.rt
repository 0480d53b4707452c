//! What rules ask of the form of an expression inside another.

/// The form of an expression, as far as the rules of assignments, of `delete` and of directives look at it.
#[derive(Clone, Copy)]
pub enum Shape {
    /// A name without parentheses; `reserved` says that it is `eval` or `arguments`.
    Name { reserved: bool },
    /// A name in parentheses.
    NameInParentheses { reserved: bool },
    /// A property access, perhaps in parentheses.
    Property,
    /// A string without parentheses; `strict` says that it is `use strict`, spelled without a backslash.
    Str { strict: bool },
    Other,
}

impl Shape {
    ghost use Rattle.std.specs.Prelude.{◌≡◌};
    ghost use Rattle.parse_early_handler.specs.Shapes.{chain_shape, in_parentheses, is_name_shape, is_target_shape};

    /// The form of a chain of members and calls, by whether its last part is a property.
    pub fn of_chain(ends_in_property: bool) -> Shape
        ensures { result ≡ chain_shape ends_in_property }
    {
        if ends_in_property {
            Shape::Property
        } else {
            Shape::Other
        }
    }

    /// The form of an expression of this form in parentheses.
    pub fn in_parentheses(self) -> Shape
        ensures { result ≡ in_parentheses self }
    {
        match self {
            Shape::Name { reserved } => Shape::NameInParentheses { reserved },
            Shape::NameInParentheses { reserved } => Shape::NameInParentheses { reserved },
            Shape::Property => Shape::Property,
            Shape::Str { strict: _ } => Shape::Other,
            Shape::Other => Shape::Other,
        }
    }

    /// Whether an expression of this form may be assigned to (ECMA-262, 12th edition, 13.15.1, 13.4.1 and 14.7.5.1).
    pub fn is_target(self) -> bool
        ensures { result ≡ is_target_shape self }
    {
        match self {
            Shape::Name { reserved } => !reserved,
            Shape::NameInParentheses { reserved } => !reserved,
            Shape::Property => true,
            Shape::Str { strict: _ } => false,
            Shape::Other => false,
        }
    }

    /// Whether an expression of this form is a name, perhaps in parentheses (ECMA-262, 13.5.1.1).
    pub fn is_name(self) -> bool
        ensures { result ≡ is_name_shape self }
    {
        match self {
            Shape::Name { reserved: _ } => true,
            Shape::NameInParentheses { reserved: _ } => true,
            Shape::Property => false,
            Shape::Str { strict: _ } => false,
            Shape::Other => false,
        }
    }
}
