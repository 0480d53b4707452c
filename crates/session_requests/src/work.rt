//! Files whose functions can be asked for.

ghost use Rattle.std.specs.Prelude.{◌≡◌, ◌≤◌, ◌<◌, ◌^◌, true, length, IfOk};
ghost use Rattle.compile_shown.specs.Counting as counting;
ghost use Rattle.compile_shown.specs.Shown.{flagged};
ghost use Rattle.stencil_board.specs.Passes.{IsMadeOf};
ghost use Rattle.session_requests.specs.Works.{shown_of, shown_total};

use compile_initial::InitialStencil;
use std::alloc::{AllocError, Global};
use std::marker::Model;
use stencil_board::{Board, Sources};

/// A file that is a script, with what is known of its functions so far.
#[derive(Drop)]
pub struct ScriptWork<'a, N: Sources> {
    pub(crate) board: Board<'a, N>,
    /// Of each function whether it is shown compiled.
    pub(crate) shown: &'a [bool],
    /// How many are.
    pub(crate) count: u64,
}

impl<'a, N: Sources> Model for ScriptWork<'a, N> {
    ghost use Rattle.session_requests.specs.Views.{WorkView};

    ghost Value = { WorkView };

    ghost view = { λ w. record { board = w.board; shown = w.shown.now; count = w.count } };
}

/// How many of these are true.
fn trues(flags: &[bool]) -> u64
    ensures { result ≡ counting.trues flags.now }
{
    let mut count = 0;
    for flag in flags {
        if *flag {
            count += 1;
        }
    }
    count
}

impl<'a, N: Sources> ScriptWork<'a, N> {
    /// The file of this number, with these bytes, of whose functions none is compiled, and these are shown.
    pub fn new(
        alloc: Global,
        file: u32,
        bytes: &'a [u8],
        initial: &'a InitialStencil,
        shown: &'a [bool],
    ) -> Result<ScriptWork<'a, N>, AllocError>
        ensures board { IfOk result (λ work. IsMadeOf file bytes.now initial.now work.board) }
        ensures shown { IfOk result (λ work. work.shown ≡ shown.now) }
        ensures count { IfOk result (λ work. work.count ≡ counting.trues shown.now) }
    {
        let board = Board::new(alloc, file, bytes, initial)?;
        let count = trues(shown);
        Ok(ScriptWork {
            board,
            shown,
            count,
        })
    }

    /// Whether the function of this number is shown.
    pub(crate) fn shows(&self, number: u32) -> bool
        ensures { result ≡ true → (1 ≤ number) × (number ≤ length self.now.shown) × (flagged self.now.shown number ≡ true) }
    {
        let place = number as usize;
        1 <= place && place <= self.shown.len() && self.shown[place - 1]
    }
}

/// How many functions of a file are shown.
pub fn shown_in<N: Sources>(work: &Option<ScriptWork<'_, N>>) -> u64
    ensures { result ≡ shown_of work.now }
{
    match work {
        Some(script) => script.count,
        None => 0,
    }
}
