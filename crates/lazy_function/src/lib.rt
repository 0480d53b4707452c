//! One function of a script by its number, compiled on its own under its chain.
//!
//! It stands on compile_initial, which makes of a file what a script is before any of its functions is compiled, on lazy_compile,
//! which compiles one function from its record, and on compile_lazy_laws, by which every function of the script can be. Whoever
//! keeps functions that were compiled by their numbers stands on it: stencil_board, relazy_board and compile_shown.
//!
//! The main contract is that of [`compile_numbered`]: what it answers is what the function of that number is compiled to
//! (`IsCompiledFunction` of `specs/Numbered.antt`), whatever tree the bytes have. That fact names no more than the bytes and the
//! number, and has one proof at most, so a value that is shared by threads can carry it. [`around_of`] says which function
//! stands around another; [`chain_in_script`] and [`chain_inside`] give the chain that a function needs, by the script or by the
//! function around it.
#![tactic(auto)]

ghost use Rattle.std.specs.Prelude.{◌≡◌, ◌<◌, ℕ, List, IfOk};
ghost use Rattle.compile_initial.specs.Initial.{IsInitialOf};
ghost use Rattle.lazy_compile.specs.Delazified.{all_texts};
ghost use Rattle.lazy_function.specs.Numbered.{IsChainOf, IsCompiledFunction, IsNumberIn, around_in};
ghost use Rattle.lazy_function.specs.Texts.{AreAmong};

mod extents;

use crate::extents::extents_inside;
use compile_initial::{InitialStencil, Nesting};
use lazy_compile::{Delazified, delazify};
use std::alloc::{AllocError, Global};
use stencil_data::Chain;

/// Where the function of this number stands.
pub fn around_of(initial: &InitialStencil, number: u32) -> Nesting
    requires initial { (bytes : List ℕ) × IsInitialOf bytes initial.now }
    requires number { IsNumberIn initial.now number }
    ensures is { result ≡ around_in initial.now number }
    ensures before { result.number < number }
{
    initial.around[number as usize - 1]
}

/// The chain of the function of this number, which stands directly in the script.
pub fn chain_in_script(initial: &InitialStencil, number: u32) -> &Chain
    requires initial { (bytes : List ℕ) × IsInitialOf bytes initial.now }
    requires number { IsNumberIn initial.now number }
    requires script { (around_in initial.now number).number ≡ 0 }
    ensures { (bytes : List ℕ) → IsChainOf bytes initial.now number result.now }
{
    let around = around_of(initial, number);
    &initial.chains[around.place]
}

/// The chain of the function of this number, which stands directly in the one that was compiled to `made`.
pub fn chain_inside<'a>(initial: &InitialStencil, made: &'a Delazified, number: u32) -> &'a Chain
    requires made { (bytes : List ℕ) × IsInitialOf bytes initial.now × IsCompiledFunction bytes (around_in initial.now number).number made.now }
    requires number { IsNumberIn initial.now number }
    requires inside { 0 < (around_in initial.now number).number }
    ensures { (bytes : List ℕ) → IsCompiledFunction bytes (around_in initial.now number).number made.now
        → IsChainOf bytes initial.now number result.now }
{
    let around = around_of(initial, number);
    &made.chains[around.place]
}

/// Compiles the function of this number in the script of these bytes, under its chain. Time and memory are linear in the bytes
/// of the function without those in the braced bodies of functions directly in it. Only memory can fail.
pub fn compile_numbered(
    alloc: Global,
    bytes: &[u8],
    initial: &InitialStencil,
    number: u32,
    chain: &Chain,
) -> Result<Delazified, AllocError>
    requires initial { IsInitialOf bytes.now initial.now }
    requires number { IsNumberIn initial.now number }
    requires chain { IsChainOf bytes.now initial.now number chain.now }
    ensures compiled { IfOk result (IsCompiledFunction bytes.now number) }
    ensures texts { IfOk result (λ made. AreAmong initial.now.parts.texts (all_texts made)) }
{
    let parts = &initial.parts;
    let lazy = &parts.records[number as usize - 1];
    let inside = extents_inside(alloc, &parts.records, lazy)?;
    let made = delazify(alloc, bytes, lazy, &inside, &parts.texts, chain)?;
    Ok(made)
}
