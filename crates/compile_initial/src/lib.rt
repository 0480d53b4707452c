//! A script before any of its functions is compiled: its own code, and of each function a record.
//!
//! It stands on compile_first_pass, which reads a script without trees of its functions, on parse_top and compile_script, by which
//! the script's own statements are compiled, and on compile_numbers, which numbers functions and sorts closed names. Who compiles
//! functions where they are first wanted, each on its own, begins here.
//!
//! The main contract is that of [`initial`] (`IsInitialOf` of `specs/Initial.antt`): the parts stand for what the definitions of
//! compile_specs have of the script of these bytes before any function of it is compiled (`initial` of `specs/Shown.antt`
//! there). Beside them is what a function needs to be compiled on its own: the chains at the functions directly in
//! the script, and of each function which one is around it and where it stands there.
#![tactic(auto)]

ghost use Rattle.std.specs.Prelude.{◌≡◌, ◌≤◌, ℕ, List, length, IfOk};
ghost use Rattle.compile_first_pass.specs.Passes.{IsSyntaxOf};
ghost use Rattle.compile_initial.specs.Initial.{IsInitialOf};

mod chains;
mod records;

use crate::chains::chains_of;
use crate::records::{around_of, records_of};
use compile_first_pass::SyntaxScript;
use compile_numbers::ClosedNames;
use compile_script::{CompiledScript, compile_script};
use parse_handlers::Full;
use parse_script::FileTokens;
use parse_top::read_top;
use std::alloc::{AllocError, Global};
use stencil_data::{Chain, InitialParts, Text};

/// Where a function stands.
#[derive(Clone, Copy, Debug)]
pub struct Nesting {
    /// The number of the function around it, from 1; 0 where it stands directly in the script.
    pub number: usize,
    /// Its place among the functions directly there, from 0.
    pub place: usize,
}

/// A script before any of its functions is compiled.
#[derive(Drop)]
pub struct InitialStencil {
    pub parts: InitialParts,
    /// The chain of the scopes around each function directly in the script, in the order of the source.
    pub chains: Vec<Chain>,
    /// Where each function stands, in order of number, from 1.
    pub around: Vec<Nesting>,
}

/// The texts of a file whose tokens were read. The tokens are let go of, before memory is asked for code.
fn texts_of(file: FileTokens) -> Vec<Text>
    ensures { result ≡ file.texts }
{
    file.texts
}

/// What a script that was read without trees, of a file of n bytes, is before any of its functions is compiled. Takes time
/// and memory in proportion to the bytes. Only memory can fail.
pub fn initial(alloc: Global, script: SyntaxScript, size: u32) -> Result<InitialStencil, AllocError>
    requires { (bytes : List ℕ) × IsSyntaxOf bytes script × (size ≡ length bytes) × (length bytes ≤ 16777215) }
    ensures { IfOk result (λ made. (bytes : List ℕ) → IsSyntaxOf bytes script → size ≡ length bytes → IsInitialOf bytes made) }
{
    let SyntaxScript {
        file,
        functions,
        closed,
    } = script;
    let closed = ClosedNames::of(alloc, &closed)?;
    let top = read_top(alloc, &file, Full::new(alloc))?;
    let texts = texts_of(file);
    let CompiledScript { stencil, inside } = compile_script(
        alloc,
        &top,
        size,
        closed.of_script(),
        &texts,
    )?;
    let chains = chains_of(alloc, inside)?;
    let records = records_of(alloc, &functions, &closed)?;
    let around = around_of(alloc, &functions)?;
    Ok(InitialStencil {
        parts: InitialParts {
            texts,
            top: stencil,
            records,
        },
        chains,
        around,
    })
}
