//! What a pass has at hand for a function, and what it puts at hand.

ghost use Rattle.std.specs.Prelude.{◌≡◌, ℕ, option_map, IfOk, IfSome, Some, None};
ghost use Rattle.std.specs.Arc.{arc_value};
ghost use Rattle.stencil_board.specs.Files.{IsFilled, file_at};
ghost use Rattle.stencil_board.specs.Passes.{BelongsTo, HasNumber, IsNumberOf, Keeps, at_hand, own_of, with_own};

use crate::board::Board;
use crate::filled::Filled;
use crate::pass::Pass;
use crate::sources::Sources;
use lazy_compile::Delazified;
use std::alloc::{AllocError, Global};
use std::sync::Arc;

impl<N: Sources> Pass<N> {
    /// What the pass keeps itself for this function.
    fn kept(&self, number: u32) -> Result<Option<Arc<Delazified>>, AllocError>
        requires number { HasNumber self.now number }
        ensures found { IfOk result (λ found. option_map arc_value found ≡ own_of self.now number) }
        ensures is { IfOk result (λ found. IfSome found (λ made. IsFilled (file_at N.files self.now.file) number (arc_value made))) }
    {
        match &self.own[number as usize - 1] {
            Some(own) => {
                if own.is_of(self.file, number) {
                    Ok(Some(own.share()?))
                } else {
                    Ok(None)
                }
            }
            None => Ok(None),
        }
    }

    /// Keeps this for the function.
    fn keep(&mut self, number: u32, mine: Filled<N>)
        requires { HasNumber self.old number }
        ensures { self.new ≡ with_own self.old number (Some mine) }
    {
        self.own[number as usize - 1] = Some(mine);
    }
}

impl<'a, N: Sources> Board<'a, N> {
    /// What is at hand for a function, after a look at its cell.
    pub(crate) fn at_hand(
        &self,
        pass: &mut Pass<N>,
        number: u32,
    ) -> Result<Option<Arc<Delazified>>, AllocError>
        requires belongs { BelongsTo pass.old self.now }
        requires number { IsNumberOf self.now number }
        ensures belongs { BelongsTo pass.new self.now }
        ensures keeps { Keeps pass.old pass.new }
        ensures found { IfOk result (λ found. option_map arc_value found ≡ at_hand pass.new number) }
        ensures is { IfOk result (λ found. IfSome found (λ made. IsFilled (file_at N.files self.now.file) number (arc_value made))) }
    {
        if let Some(own) = pass.kept(number)? {
            return Ok(Some(own));
        }
        match self.look(pass, number) {
            Some(found) => {
                if found.is_of(self.file, number) {
                    Ok(Some(found.share()?))
                } else {
                    Ok(None)
                }
            }
            None => Ok(None),
        }
    }

    /// Puts this at hand for a function for which nothing was: the cell keeps it, if it was empty.
    pub(crate) fn put(
        &self,
        alloc: Global,
        pass: &mut Pass<N>,
        number: u32,
        mine: Arc<Delazified>,
    ) -> Result<Arc<Delazified>, AllocError>
        requires belongs { BelongsTo pass.old self.now }
        requires number { IsNumberOf self.now number }
        requires lacking { at_hand pass.old number ≡ None }
        requires is { IsFilled (file_at N.files self.now.file) number (arc_value mine) }
        ensures belongs { BelongsTo pass.new self.now }
        ensures keeps { Keeps pass.old pass.new }
        ensures found { IfOk result (λ made. at_hand pass.new number ≡ Some (arc_value made)) }
        ensures is { IfOk result (λ made. IsFilled (file_at N.files self.now.file) number (arc_value made)) }
    {
        let other = Arc::try_clone(&mine)?;
        let offered = Box::new(alloc, Filled::new(self.file, number, other))?;
        let stands = self.offer(pass, number, offered);
        if stands.is_of(self.file, number) {
            return stands.share();
        }
        let other = Arc::try_clone(&mine)?;
        pass.keep(number, Filled::new(self.file, number, other));
        Ok(mine)
    }
}
