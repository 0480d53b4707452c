//! What passes know of the cells: for every pass the same.

ghost use Rattle.std.specs.Prelude.{◌≡◌, ◌<◌, length, option_map, IfOk, MatchOption, Some, None};
ghost use Rattle.stencil_board.specs.Passes.{AgreeAt, AgreesWith, BelongsTo, IsNumberOf, Keeps, known_of};

use crate::board::Board;
use crate::filled::Filled;
use crate::pass::Pass;
use crate::sources::Sources;
use lazy_compile::Delazified;
use std::alloc::{AllocError, Global};

impl<'a, N: Sources> Board<'a, N> {
    /// What the cell of this function keeps. None comes only where the pass knows nothing of the cell. It takes no memory.
    pub fn known<'b>(&'b self, pass: &mut Pass<N>, number: u32) -> Option<&'b Delazified>
        requires belongs { BelongsTo pass.old self.now }
        requires number { IsNumberOf self.now number }
        ensures belongs { BelongsTo pass.new self.now }
        ensures keeps { Keeps pass.old pass.new }
        ensures value { option_map (λ made. made.now) result ≡ option_map (λ r. r.made) (known_of pass.new number) }
        ensures none { MatchOption result (known_of pass.old number ≡ None) (λ made. Unit {0}) }
    {
        match self.look(pass, number) {
            Some(found) => Some(found.made()),
            None => None,
        }
    }

    /// Offers a result to the cell of this function, and answers what the cell keeps from then on: the first that it was offered. A
    /// result of another function is kept too; requests pass it by.
    pub fn publish<'b>(
        &'b self,
        alloc: Global,
        pass: &mut Pass<N>,
        number: u32,
        value: Filled<N>,
    ) -> Result<&'b Delazified, AllocError>
        requires belongs { BelongsTo pass.old self.now }
        requires number { IsNumberOf self.now number }
        ensures belongs { BelongsTo pass.new self.now }
        ensures keeps { Keeps pass.old pass.new }
        ensures value { IfOk result (λ made. option_map (λ r. r.made) (known_of pass.new number) ≡ Some made.now) }
    {
        let offered = Box::new(alloc, value)?;
        let stands = self.offer(pass, number, offered);
        Ok(stands.made())
    }

    /// A cell that both passes know has one value. It changes neither of them, and takes no memory.
    pub fn meet(&self, one: &mut Pass<N>, two: &mut Pass<N>)
        requires one { BelongsTo one.old self.now }
        requires two { BelongsTo two.old self.now }
        ensures one { one.new ≡ one.old }
        ensures two { two.new ≡ two.old }
        ensures agree { AgreesWith one.old two.old }
    {
        for place in 0..self.cells.len() {
            compare(one, two, place);
        }
    }
}

/// The notes at this place agree.
fn compare<N: Sources>(one: &mut Pass<N>, two: &mut Pass<N>, place: usize)
    requires same { one.old.cells ≡ two.old.cells }
    requires place { place < length one.old.cells }
    ensures one { one.new ≡ one.old }
    ensures two { two.new ≡ two.old }
    ensures agree { AgreeAt one.old two.old place }
{
    let other = two.notes[place].again();
    one.notes[place].compare(other);
}
