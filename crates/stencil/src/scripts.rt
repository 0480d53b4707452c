//! Scripts, compiled.

ghost use Rattle.std.specs.Prelude.{◌≡◌, ◌<◌, ℕ, List, length, IfOk};
ghost use Rattle.compile_wanted.specs.Numbers.{to_show};
ghost use Rattle.lazy_function.specs.Numbered.{around_in};
ghost use Rattle.stencil.specs.Answers.{IsMissing};
ghost use Rattle.stencil.specs.Scripts.{HasNumber, IsDirectlyIn, IsFunctionOf, IsLazyOf, IsOpened};
ghost use Rattle.stencil.specs.Stencils.{IsCompiled, IsShownOf, asked_of};

use crate::answers::{Answer, Refusal};
use crate::reading::read_text;
use compile_initial::{InitialStencil, initial};
use compile_shown::compile_shown;
use compile_tally::Sheet;
use compile_wanted::Wanted;
use lazy_compile::Delazified;
use lazy_function::{around_of, chain_in_script, chain_inside, compile_numbered};
use std::alloc::{AllocError, Global};
use stencil_data::{InitialParts, MergedStencil};

/// A script of which functions are compiled one by one, when each is first wanted.
///
/// It does not keep the text: each call that compiles is handed the bytes again. It is plain data, which threads may share.
#[derive(Drop)]
pub struct Lazy {
    /// The script before any of its functions is compiled.
    pub initial: InitialStencil,
}

/// How many functions a script has.
fn function_count(parts: &InitialParts) -> usize
    ensures { result ≡ length parts.now.records }
{
    parts.records.len()
}

impl Lazy {
    /// The script that this text is. Its own code is compiled and none of its functions. Takes time and memory in proportion to
    /// the bytes.
    pub fn open(alloc: Global, text: &[u8]) -> Result<Answer<Lazy>, AllocError>
        ensures { IfOk result (IsOpened text.now) }
    {
        let read = read_text(alloc, text)?;
        match read {
            Answer::Script(script) => {
                let initial = initial(alloc, script, text.len() as u32)?;
                Ok(Answer::Script(Lazy { initial }))
            }
            Answer::Refused(why) => Ok(Answer::Refused(why)),
        }
    }

    /// The script's own code, and the record of each function: its extent, kind and name, and the numbers of those directly in it.
    pub fn parts(&self) -> &InitialParts
        ensures { result.now ≡ self.now.initial.parts }
    {
        &self.initial.parts
    }

    /// How many functions it has. They are numbered from 1 in the order of the source.
    pub fn functions(&self) -> u32
        requires { (text : List ℕ) × IsLazyOf text self.now }
        ensures { result ≡ length self.now.initial.parts.records }
    {
        function_count(&self.initial.parts) as u32
    }

    /// The number of the function around this one, 0 where it stands directly in the script.
    pub fn around(&self, number: u32) -> u32
        requires opened { (text : List ℕ) × IsLazyOf text self.now }
        requires number { HasNumber self.now number }
        ensures is { result ≡ (around_in self.now.initial number).number }
        ensures before { result < number }
    {
        around_of(&self.initial, number).number as u32
    }

    /// The function of this number, compiled. The functions around it are compiled first, the outermost one before the others, for
    /// the scopes that they hand down. Time and memory are linear in the bytes of these.
    pub fn function(
        &self,
        alloc: Global,
        text: &[u8],
        number: u32,
    ) -> Result<Delazified, AllocError>
        requires opened { IsLazyOf text.now self.now }
        requires number { HasNumber self.now number }
        ensures { IfOk result (IsFunctionOf text.now number) }
    {
        let around = self.around(number);
        if around == 0 {
            let chain = chain_in_script(&self.initial, number);
            return compile_numbered(alloc, text, &self.initial, number, chain);
        }
        let outer = self.function(alloc, text, around)?;
        self.function_in(alloc, text, &outer, number)
    }

    /// The function of this number, compiled, which stands directly in one that was compiled before. Time and memory are linear in
    /// the bytes of the function, without those in the braced bodies of functions directly in it.
    pub fn function_in(
        &self,
        alloc: Global,
        text: &[u8],
        outer: &Delazified,
        number: u32,
    ) -> Result<Delazified, AllocError>
        requires opened { IsLazyOf text.now self.now }
        requires number { HasNumber self.now number }
        requires outer { IsDirectlyIn text.now self.now outer.now number }
        ensures { IfOk result (IsFunctionOf text.now number) }
    {
        let chain = chain_inside(&self.initial, outer, number);
        compile_numbered(alloc, text, &self.initial, number, chain)
    }

    /// The script with the functions compiled that are wanted, and those around them. A number that no function has changes nothing.
    /// Time and memory are linear in the bytes of the functions that are compiled, and in the records.
    pub fn stencil(
        &self,
        alloc: Global,
        text: &[u8],
        wanted: Wanted<'_>,
    ) -> Result<MergedStencil, AllocError>
        requires { IsLazyOf text.now self.now }
        ensures { IfOk result (IsShownOf (to_show wanted.entry) text.now (length self.now.initial.parts.records)) }
    {
        let mut sheet = Sheet::new(function_count(&self.initial.parts) as u64);
        let stencil = compile_shown(alloc, text, &self.initial, wanted, &mut sheet)?;
        Ok(stencil)
    }
}

/// The least wanted number that none of n functions has.
fn missing_of(wanted: Wanted<'_>, count: u32) -> Option<u32>
    ensures { IsMissing (asked_of wanted.entry) count result }
{
    match wanted {
        Wanted::All => None,
        Wanted::Numbers(numbers) => numbers
            .iter()
            .copied()
            .filter(|number| *number > count)
            .min(),
    }
}

/// The script that this text is, with the functions compiled that are wanted and those around them; of every other function a
/// record. Or why the text is refused, which it also is where some wanted number is that of no function. Takes time and memory in
/// proportion to the bytes.
pub fn compile(
    alloc: Global,
    text: &[u8],
    wanted: Wanted<'_>,
) -> Result<Answer<MergedStencil>, AllocError>
    ensures { IfOk result (IsCompiled (asked_of wanted.entry) text.now) }
{
    let opened = Lazy::open(alloc, text)?;
    match opened {
        Answer::Refused(why) => Ok(Answer::Refused(why)),
        Answer::Script(script) => match missing_of(wanted, script.functions()) {
            Some(number) => Ok(Answer::Refused(Refusal::NoFunction { number })),
            None => {
                let stencil = script.stencil(alloc, text, wanted)?;
                Ok(Answer::Script(stencil))
            }
        },
    }
}
