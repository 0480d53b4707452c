//! A worker at one file.

ghost use Rattle.std.specs.Prelude.{◌≡◌, ◌<◌, ◌^◌, length, true, IfOk};
ghost use Rattle.bytecode_buf.specs.InRange.{TextsSmall};
ghost use Rattle.compile_shown.specs.Shown.{flagged};
ghost use Rattle.stencil_board.specs.Passes.{IsMadeOf, IsNumberOf};
ghost use Rattle.session_requests.specs.Hands.{FitsWork};
ghost use Rattle.session_requests.specs.Works.{IsMerged, IsWork};

use crate::work::ScriptWork;
use compile_shown::merge_shown;
use compile_tally::{Sheet, Ticks};
use std::alloc::{AllocError, Global};
use std::marker::Model;
use stencil_board::{Pass, Sources};
use stencil_data::MergedStencil;

/// What a worker knows of the functions of a file, and how many of them it compiled.
#[derive(Drop)]
pub(crate) struct Seat<N: Sources> {
    pass: Pass<N>,
    /// On which it counts them. There is room for all that are shown.
    sheet: Sheet,
    /// Whether memory was wanting once. Then the room may be too small for what is not known, and nothing is compiled any more.
    spent: bool,
}

impl<N: Sources> Model for Seat<N> {
    ghost use Rattle.session_requests.specs.Views.{SeatView};

    ghost Value = { SeatView };

    ghost view = { λ s. record { pass = s.pass; count = ⟦<Sheet as Ticks>⟧.count s.sheet; room = ⟦<Sheet as Ticks>⟧.room s.sheet; spent = s.spent } };
}

impl<N: Sources> Seat<N> {
    /// A worker that knows nothing of the file yet.
    pub(crate) fn new(alloc: Global, work: &ScriptWork<'_, N>) -> Result<Seat<N>, AllocError>
        requires { IsWork N.files work.now }
        ensures { IfOk result (FitsWork work.now) }
    {
        let pass = work.board.pass(alloc)?;
        Ok(Seat {
            pass,
            sheet: Sheet::new(work.count),
            spent: false,
        })
    }

    /// Asks for the function of this number, which is shown.
    pub(crate) fn request(
        &mut self,
        alloc: Global,
        work: &ScriptWork<'_, N>,
        number: u32,
    ) -> Result<(), AllocError>
        requires work { IsWork N.files work.now }
        requires fits { FitsWork work.now self.old }
        requires number { IsNumberOf work.now.board number }
        requires shown { flagged work.now.shown number ≡ true }
        ensures { FitsWork work.now self.new }
    {
        if self.spent {
            return Err(AllocError);
        }
        match work
            .board
            .request(alloc, &mut self.pass, number, &mut self.sheet)
        {
            Ok(_) => Ok(()),
            Err(error) => {
                self.spent = true;
                Err(error)
            }
        }
    }

    /// The script with the functions that are shown.
    pub(crate) fn merged(
        &mut self,
        alloc: Global,
        work: &ScriptWork<'_, N>,
    ) -> Result<MergedStencil, AllocError>
        requires work { IsWork N.files work.now }
        requires fits { FitsWork work.now self.old }
        ensures merged { IfOk result (IsMerged work.now) }
        ensures few { IfOk result (λ merged. length merged.texts < 2 ^ 31) }
        ensures small { IfOk result (λ merged. TextsSmall merged.texts) }
        ensures fits { FitsWork work.now self.new }
    {
        if self.spent {
            return Err(AllocError);
        }
        match merge_shown(
            alloc,
            &work.board,
            &mut self.pass,
            work.shown,
            &mut self.sheet,
        ) {
            Ok(merged) => Ok(merged),
            Err(error) => {
                self.spent = true;
                Err(error)
            }
        }
    }

    /// How many functions were compiled at it.
    pub(crate) fn compiled(&self) -> u64
        ensures { result ≡ self.now.count }
    {
        self.sheet.count()
    }
}
