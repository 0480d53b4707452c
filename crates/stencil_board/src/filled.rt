//! A result with the fact that it is that of its file and its function.

ghost use Rattle.std.specs.Prelude.{◌≡◌, ◌&&◌, nat_eq, IfOk};
ghost use Rattle.std.specs.Arc.{arc_value};
ghost use Rattle.stencil_board.specs.Files.{IsFilled, IsFilled-prop, file_at};
ghost use Rattle.stencil_board.specs.Passes.{is_of};

use crate::sources::Sources;
use lazy_compile::Delazified;
use std::alloc::AllocError;
use std::marker::{Model, PhantomData};
use std::sync::Arc;

/// What a function of a file is compiled to. It says of which file and which function it is, since a cell can keep any.
#[derive(Drop)]
pub struct Filled<N: Sources> {
    file: u32,
    number: u32,
    made: Arc<Delazified>,
    of: PhantomData<N>,
    ghost is: { IsFilled (file_at N.files file) number (arc_value made) } by { IsFilled-prop (file_at N.files file) number (arc_value made) },
}

impl<N: Sources> Model for Filled<N> {
    ghost use Rattle.std.specs.Arc.{arc_value};
    ghost use Rattle.stencil_board.specs.Views.{ResultView};

    ghost Value = { ResultView };

    ghost view = { λ f. record { file = f.file; number = f.number; made = arc_value f.made } };
}

impl<N: Sources> Filled<N> {
    /// The result of the function of this number in the file at this place.
    pub fn new(file: u32, number: u32, made: Arc<Delazified>) -> Self
        requires { IsFilled (file_at N.files file) number (arc_value made) }
        ensures { result ≡ record { file = file; number = number; made = arc_value made } }
    {
        Filled {
            file,
            number,
            made,
            of: PhantomData,
        }
    }

    /// Whether it is that of this function.
    pub(crate) fn is_of(&self, file: u32, number: u32) -> bool
        ensures { result ≡ is_of file number self.now }
    {
        self.file == file && self.number == number
    }

    /// The result, which others share.
    pub(crate) fn share(&self) -> Result<Arc<Delazified>, AllocError>
        ensures same { IfOk result (λ made. arc_value made ≡ self.now.made) }
        ensures is { IfOk result (λ made. IsFilled (file_at N.files self.now.file) self.now.number (arc_value made)) }
    {
        let made = Arc::try_clone(&self.made)?;
        Ok(made)
    }

    /// The result.
    pub(crate) fn made(&self) -> &Delazified
        ensures { result.now ≡ self.now.made }
    {
        &self.made
    }
}
