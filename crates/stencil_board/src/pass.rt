//! What one worker knows of the cells of a board, and what it keeps beside them.

use crate::filled::Filled;
use crate::sources::Sources;
use once_cell::race::Note;
use std::marker::Model;

/// What one worker knows of the cells of a board. Where a cell keeps a result of another function, the pass keeps its own.
#[derive(Drop)]
pub struct Pass<N: Sources> {
    pub(crate) file: u32,
    pub(crate) notes: Vec<Note<Filled<N>>>,
    pub(crate) own: Vec<Option<Filled<N>>>,
}

impl<N: Sources> Model for Pass<N> {
    ghost use Rattle.std.specs.Prelude.{map};
    ghost use Rattle.stencil_board.specs.Views.{PassView};

    ghost Value = { PassView };

    ghost view = { λ p. record {
      file = p.file;
      cells = map (λ n. n.cell) p.notes.items;
      known = map (λ n. n.known) p.notes.items;
      own = p.own.items;
    } };
}
