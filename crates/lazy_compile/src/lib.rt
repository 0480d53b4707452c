//! One function of a script, compiled on its own under the chain of scopes around it, where its code is first wanted
//! (delazification).
//!
//! It stands on parse_function, which reads a function of a script again from its extent alone, on compile_function, which
//! compiles a function, and on track_atoms. What is kept of a function that was not compiled is its record; what it needs to
//! know of the scopes around it is a chain.
//!
//! [`delazify`] answers a stencil with texts of its own, of which the known words are not kept, and the chain at each function
//! directly in it, under which these are compiled in their turn. Its contract (`specs/Delazified.antt`) says that the stencil
//! stands for the very function that compiling the whole script from one tree gives, and that the chains are those that it hands
//! down there, by the definitions of compile_specs (`specs/Eager.antt`).
#![tactic(auto)]

ghost use Rattle.std.specs.Prelude.{◌≡◌, ◌++◌, IfOk};
ghost use Rattle.script_grammar.specs.Tree.{Stmts};
ghost use Rattle.compile_specs.specs.Eager.{Site};
ghost use Rattle.parse_function.specs.Extents.{extents_in};
ghost use Rattle.track_atoms.specs.Known.{HasWords, known_atoms, word_texts};
ghost use Rattle.lazy_compile.specs.Delazified.{CanBeDelazified, CompilesAlone, all_texts};
ghost use Rattle.lazy_compile.specs.Texts.{AreTextsOf};

mod alone;
mod chains;
mod forms;
mod own_texts;

use crate::alone::{FunctionAlone, read_alone};
use crate::chains::chains_of;
use compile_function::{CompiledFunction, compile_function};
use std::alloc::{AllocError, Global};
use stencil_data::{Chain, Extent, FunctionStencil, LazyRecord, Text};

/// How many texts every function's list begins with: the known words of track_atoms, in their order there.
pub const KNOWN_WORDS: usize = 7;

/// A function that was compiled on its own.
#[derive(Drop)]
pub struct Delazified {
    /// In its code a function is named by its place among those directly inside. Its atoms are indexes into the list of the known
    /// words and `texts` behind them: an atom below [`KNOWN_WORDS`] is that of a known word, and any other is that of the text at
    /// the atom less [`KNOWN_WORDS`].
    pub stencil: FunctionStencil,
    /// Its texts behind the known words.
    pub texts: Vec<Text>,
    /// The chain of the scopes around each function directly in it, in the order of the source.
    pub chains: Vec<Chain>,
}

/// Compiles the function that has this record in the script that `file` is, under the chain of the scopes around it. `inside`
/// are the extents of the functions directly in it, in the order of the source, and the atoms of the record are indexes into
/// `texts`.
///
/// Of the file the bytes of the function's extent are read and no others, without those in the braced bodies of functions
/// directly in it. Time is linear in these. Only memory can fail.
pub fn delazify(
    alloc: Global,
    file: &[u8],
    lazy: &LazyRecord,
    inside: &[Extent],
    texts: &[Text],
    chain: &Chain,
) -> Result<Delazified, AllocError>
    requires { (items : Stmts) × (m : Site) × CanBeDelazified file.now lazy.now texts.now chain.now items m × (inside.now ≡ extents_in m.inner) }
    ensures compiled { IfOk result (CompilesAlone file.now lazy.now texts.now chain.now) }
    ensures texts { IfOk result (λ made. AreTextsOf file.now texts.now (all_texts made)) }
{
    let FunctionAlone {
        func,
        name,
        closed,
        texts,
    } = read_alone(alloc, file, lazy, inside, texts)?;
    let CompiledFunction {
        stencil,
        inside: sites,
    } = compile_function(alloc, &func, lazy.kind, name, &closed, chain, &texts)?;
    let chains = chains_of(alloc, sites)?;
    let texts = behind_known(texts)?;
    Ok(Delazified {
        stencil,
        texts,
        chains,
    })
}

// The texts of this list, which begins with the known words, that stand behind them.
fn behind_known(mut texts: Vec<Text>) -> Result<Vec<Text>, AllocError>
    requires { HasWords texts.items known_atoms }
    ensures { IfOk result (λ behind. word_texts ++ behind.items ≡ texts.items) }
{
    texts.split_off(KNOWN_WORDS)
}
