//! The cells of a board, one at a time, as a pass comes to know them.

ghost use Rattle.std.specs.Prelude.{◌≡◌, ℕ, option_map, Some};
ghost use Rattle.stencil_board.specs.Passes.{BelongsTo, Stands, IsNumberOf, known_of, with_known};

use crate::board::Board;
use crate::filled::Filled;
use crate::pass::Pass;
use crate::sources::Sources;

impl<'a, N: Sources> Board<'a, N> {
    /// What this cell keeps.
    pub(crate) fn look<'b>(&'b self, pass: &mut Pass<N>, number: u32) -> Option<&'b Filled<N>>
        requires belongs { BelongsTo pass.old self.now }
        requires number { IsNumberOf self.now number }
        ensures pass { pass.new ≡ with_known pass.old number (option_map (λ found. found.now) result) }
        ensures agrees { Stands (known_of pass.old number) (option_map (λ found. found.now) result) }
    {
        let cell = &self.cells[number as usize - 1];
        let note = &mut pass.notes[number as usize - 1];
        cell.get_as(note)
    }

    /// What this cell keeps once this was offered: this, if it was empty.
    pub(crate) fn offer<'b>(
        &'b self,
        pass: &mut Pass<N>,
        number: u32,
        mine: Box<Filled<N>>,
    ) -> &'b Filled<N>
        requires belongs { BelongsTo pass.old self.now }
        requires number { IsNumberOf self.now number }
        ensures pass { pass.new ≡ with_known pass.old number (Some result.now) }
        ensures agrees { Stands (known_of pass.old number) (Some result.now) }
    {
        let cell = &self.cells[number as usize - 1];
        let note = &mut pass.notes[number as usize - 1];
        cell.get_or_init_as(move || mine, note)
    }
}
