//! Requests: what a function is compiled to, whoever compiled it.

ghost use Rattle.std.specs.Prelude.{◌≡◌, ◌<◌, ◌≤◌, ◌+◌, ℕ, Bool, true, IfOk, OnOk, Some, None};
ghost use Rattle.std.specs.Arc.{arc_value};
ghost use Rattle.compile_tally.specs.Tally.{Rises};
ghost use Rattle.lazy_compile.specs.Delazified.{all_texts};
ghost use Rattle.lazy_function.specs.Numbered.{IsChainOf, IsCompiledFunction};
ghost use Rattle.lazy_function.specs.Texts.{AreAmong};
ghost use Rattle.stencil_board.specs.Files.{IsFilled, file_at};
ghost use Rattle.stencil_board.specs.Passes.{BelongsTo, IsBoard, IsNumberOf, IsUpward, Keeps, Suffices, at_hand, lacking};

use crate::board::Board;
use crate::pass::Pass;
use crate::sources::Sources;
use compile_tally::Ticks;
use lazy_compile::Delazified;
use lazy_function::{around_of, chain_in_script, chain_inside, compile_numbered};
use std::alloc::{AllocError, Global};
use std::sync::Arc;
use stencil_data::Chain;

impl<'a, N: Sources> Board<'a, N> {
    /// What the function of this number is compiled to. Where the pass has nothing at hand for it, it is taken from its cell, or
    /// else compiled and offered to the cell, after the function around it; each function that is compiled is counted. Only
    /// memory can fail.
    pub fn request<T: Ticks>(
        &self,
        alloc: Global,
        pass: &mut Pass<N>,
        number: u32,
        tally: &mut T,
    ) -> Result<Arc<Delazified>, AllocError>
        requires board { IsBoard N.files self.now }
        requires belongs { BelongsTo pass.old self.now }
        requires number { IsNumberOf self.now number }
        requires room { (shown : ℕ → Bool) × Suffices self.now.initial shown number pass.old (T.room tally.old) }
        ensures compiled { IfOk result (λ made. IsCompiledFunction self.now.bytes number (arc_value made)) }
        ensures texts { IfOk result (λ made. AreAmong self.now.initial.parts.texts (all_texts (arc_value made))) }
        ensures hand { IfOk result (λ made. at_hand pass.new number ≡ Some (arc_value made)) }
        ensures belongs { BelongsTo pass.new self.now }
        ensures keeps { Keeps pass.old pass.new }
        ensures sum { T.count tally.new + T.room tally.new ≡ T.count tally.old + T.room tally.old }
        ensures rising { T.count tally.old ≤ T.count tally.new }
        ensures counted { (shown : ℕ → Bool) → IsUpward self.now.initial shown → shown number ≡ true
            → OnOk result (T.count tally.new + lacking shown pass.new ≤ T.count tally.old + lacking shown pass.old) }
        ensures most { (shown : ℕ → Bool) → IsUpward self.now.initial shown → shown number ≡ true
            → T.count tally.new ≤ T.count tally.old + lacking shown pass.old }
    {
        if let Some(found) = self.at_hand(pass, number)? {
            return Ok(found);
        }
        let around = around_of(self.initial, number);
        if around.number == 0 {
            let chain = chain_in_script(self.initial, number);
            return self.fill(alloc, pass, number, chain, tally);
        }
        let outer = self.request(alloc, pass, around.number as u32, tally)?;
        let chain = chain_inside(self.initial, &outer, number);
        self.fill(alloc, pass, number, chain, tally)
    }

    /// The same, where the chain of the function is known.
    fn fill<T: Ticks>(
        &self,
        alloc: Global,
        pass: &mut Pass<N>,
        number: u32,
        chain: &Chain,
        tally: &mut T,
    ) -> Result<Arc<Delazified>, AllocError>
        requires board { IsBoard N.files self.now }
        requires belongs { BelongsTo pass.old self.now }
        requires number { IsNumberOf self.now number }
        requires chain { IsChainOf self.now.bytes self.now.initial number chain.now }
        requires room { (shown : ℕ → Bool) × (shown number ≡ true) × (lacking shown pass.old ≤ T.room tally.old) }
        ensures compiled { IfOk result (λ made. IsCompiledFunction self.now.bytes number (arc_value made)) }
        ensures texts { IfOk result (λ made. AreAmong self.now.initial.parts.texts (all_texts (arc_value made))) }
        ensures hand { IfOk result (λ made. at_hand pass.new number ≡ Some (arc_value made)) }
        ensures belongs { BelongsTo pass.new self.now }
        ensures keeps { Keeps pass.old pass.new }
        ensures sum { T.count tally.new + T.room tally.new ≡ T.count tally.old + T.room tally.old }
        ensures rising { T.count tally.old ≤ T.count tally.new }
        ensures counted { (shown : ℕ → Bool) → shown number ≡ true
            → OnOk result (T.count tally.new + lacking shown pass.new ≤ T.count tally.old + lacking shown pass.old) }
        ensures most { (shown : ℕ → Bool) → shown number ≡ true → T.count tally.new ≤ T.count tally.old + lacking shown pass.old }
    {
        if let Some(found) = self.at_hand(pass, number)? {
            return Ok(found);
        }
        let made = self.compile(alloc, number, chain, tally)?;
        let held = self.put(alloc, pass, number, made)?;
        Ok(held)
    }

    /// Compiles a function under its chain, and counts it.
    fn compile<T: Ticks>(
        &self,
        alloc: Global,
        number: u32,
        chain: &Chain,
        tally: &mut T,
    ) -> Result<Arc<Delazified>, AllocError>
        requires board { IsBoard N.files self.now }
        requires number { IsNumberOf self.now number }
        requires chain { IsChainOf self.now.bytes self.now.initial number chain.now }
        requires room { 0 < T.room tally.old }
        ensures filled { IfOk result (λ made. IsFilled (file_at N.files self.now.file) number (arc_value made)) }
        ensures counted { Rises (T.count tally.old) (T.room tally.old) (T.count tally.new) (T.room tally.new) 1 }
    {
        tally.tick();
        let made = compile_numbered(alloc, self.bytes, self.initial, number, chain)?;
        let shared = Arc::new(alloc, made)?;
        Ok(shared)
    }
}
