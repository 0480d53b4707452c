//! What takes the items of a stencil, one after another.

ghost use Rattle.std.specs.Prelude.{List, [], ◌∷◌, ◌++◌, OnOk};
ghost use Rattle.stencil_xdr_specs.specs.Image.{Item, Bytes, Atom, number as number_item};

use std::alloc::AllocError;

/// What takes items. A walk over a stencil hands it all items in their order, whatever it does with them.
pub(crate) trait Sink {
    ghost takes: { Self → List Item → Self → Type 0 };

    /// Takes bytes as they are.
    fn bytes(&mut self, bytes: &[u8]) -> Result<(), AllocError>
        ensures { OnOk result (takes self.old (Bytes bytes.now ∷ []) self.new) };

    /// Takes the low bytes of a number, as many as the width says.
    fn number(&mut self, width: usize, value: u64) -> Result<(), AllocError>
        ensures { OnOk result (takes self.old (number_item width value ∷ []) self.new) };

    /// Takes the number that a text has in the stencil.
    fn atom(&mut self, atom: u64) -> Result<(), AllocError>
        ensures { OnOk result (takes self.old (Atom atom ∷ []) self.new) };

    ghost takes_none: { (s : Self) → takes s [] s };

    ghost takes_both: { (a b c : Self) (xs ys : List Item) → takes a xs b → takes b ys c → takes a (xs ++ ys) c };
}
