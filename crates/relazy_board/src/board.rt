//! The board.

ghost use Rattle.std.specs.Prelude.{◌≡◌, ◌<◌, ◌≤◌, ◌+◌, suc, IfOk, IfSome};
ghost use Rattle.std.specs.Arc.{arc_value};
ghost use Rattle.compile_initial.specs.Initial.{IsInitialOf};
ghost use Rattle.compile_tally.specs.Tally.{Rises};
ghost use Rattle.lazy_function.specs.Numbered.{IsChainOf, IsCompiledFunction, IsNumberIn, around_in};
ghost use Rattle.relazy_board.specs.Board.{AreSlotsOf};
ghost use Rattle.relazy_board.specs.Depth.{depth_of};

use crate::place::{FunctionPlace, Slot};
use crate::reading::Reading;
use crate::slot::{empty, enter, keep};
use compile_initial::InitialStencil;
use compile_tally::Ticks;
use counted_slot::Counted;
use lazy_compile::Delazified;
use lazy_function::{around_of, chain_in_script, chain_inside, compile_numbered};
use std::alloc::{AllocError, Global};
use std::marker::Model;
use std::sync::Arc;
use stencil_data::Chain;

/// The functions of a script, each of them compiled or not.
#[derive(Drop)]
pub struct RelazyBoard<'a> {
    bytes: &'a [u8],
    initial: &'a InitialStencil,
    slots: Vec<Slot<'a>>,
}

impl<'a> Model for RelazyBoard<'a> {
    ghost use Rattle.std.specs.Prelude.{length};
    ghost use Rattle.relazy_board.specs.BoardView.{BoardView};
    ghost use Rattle.relazy_board.specs.Board.{AreSlotsOf};

    ghost Value = { BoardView };

    ghost view = { λ b. record { bytes = b.bytes.now; initial = b.initial.now } };

    ghost invariant = { λ b. AreSlotsOf b.bytes.now (length b.initial.now.parts.records) b.slots.items };
}

/// A slot in which nothing is for each of this many functions of the script of these bytes.
fn empty_slots<'a>(
    alloc: Global,
    bytes: &'a [u8],
    count: usize,
) -> Result<Vec<Slot<'a>>, AllocError>
    ensures { IfOk result (λ slots. AreSlotsOf bytes.now count slots.items) }
{
    let mut slots = Vec::new(alloc);
    for index in 0..count {
        let place = FunctionPlace {
            bytes,
            number: index + 1,
        };
        slots.push(Counted::new(None, &place))?;
    }
    Ok(slots)
}

impl<'a> RelazyBoard<'a> {
    /// The board of the script of these bytes. No function is compiled.
    pub fn new(
        alloc: Global,
        bytes: &'a [u8],
        initial: &'a InitialStencil,
    ) -> Result<RelazyBoard<'a>, AllocError>
        ensures bytes { IfOk result (λ board. board.bytes ≡ bytes.now) }
        ensures initial { IfOk result (λ board. board.initial ≡ initial.now) }
    {
        let slots = empty_slots(alloc, bytes, initial.parts.records.len())?;
        Ok(RelazyBoard {
            bytes,
            initial,
            slots,
        })
    }

    /// A reading of the function of this number. Where no result is at hand for it, the function is compiled, after those around
    /// it that it needs for this. Each compile counts on the tally. Only memory can fail.
    pub fn request<T: Ticks>(
        &self,
        alloc: Global,
        number: u32,
        tally: &mut T,
    ) -> Result<Reading<'_, 'a>, AllocError>
        requires initial { IsInitialOf self.now.bytes self.now.initial }
        requires number { IsNumberIn self.now.initial number }
        requires room { depth_of self.now.initial number ≤ T.room tally.old }
        ensures compiled { IfOk result (IsCompiledFunction self.now.bytes number) }
        ensures sum { T.count tally.new + T.room tally.new ≡ T.count tally.old + T.room tally.old }
        ensures rising { T.count tally.old ≤ T.count tally.new }
        ensures most { T.count tally.new ≤ T.count tally.old + depth_of self.now.initial number }
    {
        if let Some(reading) = self.read(number) {
            return Ok(reading);
        }
        let outer = self.outer(number);
        if outer == 0 {
            return self.make(alloc, number, self.script_chain(number), tally);
        }
        let around = self.request(alloc, outer, tally)?;
        let reading = self.make(alloc, number, self.inner_chain(&around, number), tally);
        around.end();
        reading
    }

    /// The result that the reading stands for.
    pub fn value<'b>(&self, reading: &'b Reading<'_, '_>) -> &'b Delazified
        ensures { result.now ≡ reading.now }
    {
        let _ = self;
        reading.value()
    }

    /// Ends a reading.
    pub fn release(&self, reading: Reading<'_, '_>) {
        let _ = self;
        reading.end();
    }

    /// Gives up the result of the function of this number, if there is one that nobody reads. A later request makes it again.
    pub fn discard(&self, number: u32)
        requires { IsNumberIn self.now.initial number }
    {
        empty(self.slot(number));
    }

    /// The slot of the function of this number.
    fn slot(&self, number: u32) -> &Slot<'a>
        requires { IsNumberIn self.now.initial number }
        ensures bytes { result.now.bytes.now ≡ self.now.bytes }
        ensures number { result.now.number ≡ number }
    {
        &self.slots[number as usize - 1]
    }

    /// The number of the function around the one of this number, 0 where it stands directly in the script.
    fn outer(&self, number: u32) -> u32
        requires initial { IsInitialOf self.now.bytes self.now.initial }
        requires number { IsNumberIn self.now.initial number }
        ensures is { result ≡ (around_in self.now.initial number).number }
        ensures before { result < number }
        ensures depth { depth_of self.now.initial number ≡ suc (depth_of self.now.initial result) }
    {
        around_of(self.initial, number).number as u32
    }

    /// The chain of the function of this number, which stands directly in the script.
    fn script_chain(&self, number: u32) -> &Chain
        requires initial { IsInitialOf self.now.bytes self.now.initial }
        requires number { IsNumberIn self.now.initial number }
        requires script { (around_in self.now.initial number).number ≡ 0 }
        ensures { IsChainOf self.now.bytes self.now.initial number result.now }
    {
        chain_in_script(self.initial, number)
    }

    /// The chain of the function of this number, by a reading of the function around it.
    fn inner_chain<'b>(&self, around: &'b Reading<'_, '_>, number: u32) -> &'b Chain
        requires initial { IsInitialOf self.now.bytes self.now.initial }
        requires number { IsNumberIn self.now.initial number }
        requires inside { 0 < (around_in self.now.initial number).number }
        requires around { IsCompiledFunction self.now.bytes (around_in self.now.initial number).number around.now }
        ensures { IsChainOf self.now.bytes self.now.initial number result.now }
    {
        chain_inside(self.initial, around.value(), number)
    }

    /// A reading of the result that is at hand for this function, if there is one that takes one more reader.
    fn read(&self, number: u32) -> Option<Reading<'_, 'a>>
        requires { IsNumberIn self.now.initial number }
        ensures { IfSome result (IsCompiledFunction self.now.bytes number) }
    {
        enter(self.slot(number))
    }

    /// The function of this number, compiled under its chain.
    fn compile(
        &self,
        alloc: Global,
        number: u32,
        chain: &Chain,
    ) -> Result<Arc<Delazified, Global>, AllocError>
        requires initial { IsInitialOf self.now.bytes self.now.initial }
        requires number { IsNumberIn self.now.initial number }
        requires chain { IsChainOf self.now.bytes self.now.initial number chain.now }
        ensures { IfOk result (λ made. IsCompiledFunction self.now.bytes number (arc_value made)) }
    {
        let made = compile_numbered(alloc, self.bytes, self.initial, number, chain)?;
        let made = Arc::new(alloc, made)?;
        Ok(made)
    }

    /// Compiles the function of this number under its chain, which counts, and leaves the result at hand where there is none.
    fn make<T: Ticks>(
        &self,
        alloc: Global,
        number: u32,
        chain: &Chain,
        tally: &mut T,
    ) -> Result<Reading<'_, 'a>, AllocError>
        requires initial { IsInitialOf self.now.bytes self.now.initial }
        requires number { IsNumberIn self.now.initial number }
        requires chain { IsChainOf self.now.bytes self.now.initial number chain.now }
        requires room { 0 < T.room tally.old }
        ensures compiled { IfOk result (IsCompiledFunction self.now.bytes number) }
        ensures risen { Rises (T.count tally.old) (T.room tally.old) (T.count tally.new) (T.room tally.new) 1 }
    {
        tally.tick();
        let made = self.compile(alloc, number, chain)?;
        keep(self.slot(number), &made);
        match self.read(number) {
            Some(reading) => {
                drop(made);
                Ok(reading)
            }
            None => Ok(Reading::of_own(made)),
        }
    }
}
