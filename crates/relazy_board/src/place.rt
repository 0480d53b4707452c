//! Which function a slot is for, and what it keeps.

use counted_slot::{Counted, Fits};
use lazy_compile::Delazified;
use std::alloc::Global;
use std::marker::PhantomData;
use std::sync::Arc;

/// A function of a script, by the script's bytes and the function's number.
#[derive(Drop)]
pub(crate) struct FunctionPlace<'a> {
    pub bytes: &'a [u8],
    pub number: usize,
}

/// What a slot keeps: the function of its place, compiled. Who could not become a reader has another owner of it.
#[derive(Drop)]
pub(crate) struct Kept<'a> {
    pub made: Arc<Delazified, Global>,
    pub of: PhantomData<&'a [u8]>,
}

impl<'a> Fits for Kept<'a> {
    ghost use Rattle.std.specs.Arc.{arc_value};
    ghost use Rattle.relazy_board.specs.Results.{IsResultOf};

    type Tag = FunctionPlace<'a>;

    ghost fits = { λ place kept. IsResultOf place (arc_value kept.made) };
}

/// A slot of a function. In a clause it is the function's place.
pub(crate) type Slot<'a> = Counted<Option<Kept<'a>>>;
