//! Where a statement stands.

ghost use Rattle.std.specs.Prelude.{◌≡◌};
ghost use Rattle.grammar_parser_specs.specs.Stmts as pure;
ghost use Rattle.parse_bodies.specs.Means.{place_of};

/// Where a statement stands: in a list of statements, where declarations may stand too, or alone, as a loop's body.
/// `returns` says whether a `return` may stand there.
#[derive(Clone, Copy, Debug)]
pub enum Position {
    Item { returns: bool },
    Alone { returns: bool },
}

impl Position {
    /// Whether declarations may stand here.
    pub fn is_item(self) -> bool
        ensures { result ≡ pure.is_item (place_of self) }
    {
        matches!(self, Position::Item { .. })
    }

    /// Whether a `return` may stand here.
    pub fn returns(self) -> bool
        ensures { result ≡ pure.is_inside (place_of self) }
    {
        match self {
            Position::Item { returns } => returns,
            Position::Alone { returns } => returns,
        }
    }
}
