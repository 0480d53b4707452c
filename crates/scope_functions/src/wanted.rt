//! The name that a walk looks for.

ghost use Rattle.std.specs.Prelude.{◌≡◌, bytes_eq};
ghost use Rattle.stencil_data.specs.StandsFor.{text_at};
ghost use Rattle.scope_analysis.specs.Uses.{this_text};

use scope_analysis::special_names::THIS;
use scope_analysis::{same_units, units_of};
use stencil_data::Text;

/// A name that is looked for: its units, and the texts of the atoms.
#[derive(Clone, Copy)]
pub struct Wanted<'a> {
    pub texts: &'a [Text],
    pub units: &'a [u16],
}

/// Whether the name is the one under which a function finds `this`.
pub fn is_this(wanted: &Wanted) -> bool
    ensures { result ≡ bytes_eq this_text wanted.now.units.now }
{
    same_units(&THIS, wanted.units)
}

/// Whether the name is the text of this atom. An atom without a text stands for the empty text.
pub fn is_atom(wanted: &Wanted, atom: u32) -> bool
    ensures { result ≡ bytes_eq (text_at wanted.now.texts.now atom) wanted.now.units.now }
{
    same_units(units_of(wanted.texts, atom), wanted.units)
}
