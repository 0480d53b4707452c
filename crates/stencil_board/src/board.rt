//! A board, and the passes that are of it.

ghost use Rattle.std.specs.Prelude.{◌≡◌, length, replicate, IfOk, Some, None};
ghost use Rattle.stencil_board.specs.Passes.{IsMadeOf, KnowsNothing, BelongsTo};

use crate::filled::Filled;
use crate::pass::Pass;
use crate::sources::Sources;
use compile_initial::InitialStencil;
use once_cell::race::OnceBox;
use std::alloc::{AllocError, Global};
use std::marker::Model;

/// A cell for each function of a script, in order of number. `file` is the place of the script's file among those of the command.
#[derive(Drop)]
pub struct Board<'a, N: Sources> {
    pub(crate) file: u32,
    pub(crate) bytes: &'a [u8],
    pub(crate) initial: &'a InitialStencil,
    pub(crate) cells: Vec<OnceBox<Filled<N>>>,
}

impl<'a, N: Sources> Model for Board<'a, N> {
    ghost use Rattle.std.specs.Prelude.{map};
    ghost use Rattle.once_cell.specs.Once.{cell_name};
    ghost use Rattle.stencil_board.specs.Views.{BoardView};

    ghost Value = { BoardView };

    ghost view = { λ b. record { file = b.file; bytes = b.bytes.now; initial = b.initial.now; cells = map cell_name b.cells.items } };
}

impl<'a, N: Sources> Board<'a, N> {
    /// A board of the script of these bytes, with empty cells.
    pub fn new(
        alloc: Global,
        file: u32,
        bytes: &'a [u8],
        initial: &'a InitialStencil,
    ) -> Result<Self, AllocError>
        ensures { IfOk result (IsMadeOf file bytes.now initial.now) }
    {
        let parts = &initial.parts;
        let mut cells = Vec::with_capacity(alloc, parts.records.len())?;
        for _ in 0..parts.records.len() {
            cells.push(OnceBox::new(alloc))?;
        }
        Ok(Board {
            file,
            bytes,
            initial,
            cells,
        })
    }

    /// What the script is before any of its functions is compiled.
    pub fn initial(&self) -> &'a InitialStencil
        ensures { result.now ≡ self.now.initial }
    {
        self.initial
    }

    /// A pass that knows nothing.
    pub fn pass(&self, alloc: Global) -> Result<Pass<N>, AllocError>
        ensures belongs { IfOk result (λ pass. BelongsTo pass self.now) }
        ensures nothing { IfOk result KnowsNothing }
    {
        let mut notes = Vec::with_capacity(alloc, self.cells.len())?;
        let mut own = Vec::with_capacity(alloc, self.cells.len())?;
        for cell in &self.cells {
            notes.push(cell.note())?;
            own.push(None)?;
        }
        Ok(Pass {
            file: self.file,
            notes,
            own,
        })
    }
}
