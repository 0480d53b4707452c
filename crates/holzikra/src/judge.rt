//! The verdicts of the library `stencil`, and what it compiles.

ghost use Rattle.std.specs.Prelude.{◌≡◌, IfOk};
ghost use Rattle.compile_wanted.specs.Numbers.{to_show};
ghost use Rattle.session_specs.specs.Answer as session;
ghost use Rattle.session_words.specs.Asked as asked;
ghost use Rattle.stencil.specs.Answers.{IsRefusedAs};
ghost use Rattle.stencil.specs.Refusals.{refusal_of};
ghost use Rattle.stencil.specs.Scripts.{IsLazyOf};
ghost use Rattle.holzikra_scripts.specs.Written as choosing;
ghost use Rattle.holzikra_session.specs.Compiling.{IsCompiledBy};
ghost use Rattle.holzikra.specs.Compiling.{IsShownFor};
ghost use Rattle.holzikra.specs.Images.{IsFound};
ghost use Rattle.holzikra.specs.Verdicts.{IsSpot, IsVerdict, IsTold};

use crate::images::{saved, verified};
use holzikra_places::Lines;
use holzikra_scripts::{Choice, Chosen, choice_of};
use holzikra_session::{Compiled, Judge, Reason, Saved, Spot, Verdict, Verified};
use holzikra_words::FunctionWord;
use std::alloc::{AllocError, Global};
use stencil::{Answer, Lazy, Refusal, Wanted, check};

/// The judge that asks the library.
pub struct Library;

/// The place at this offset of a text; an offset behind the end, of which there is none, would be taken as the end.
fn spot_of(alloc: Global, text: &[u8], offset: u32) -> Result<Spot, AllocError>
    ensures { IfOk result (λ spot. IsSpot text.now offset spot) }
{
    let lines = Lines::of(alloc, text)?;
    let offset = offset as usize;
    let place = lines.place_of(text, offset.min(text.len()));
    Ok(Spot { offset, place })
}

/// The reason of a refusal, with its place.
pub(crate) fn reason_of(alloc: Global, text: &[u8], why: Refusal) -> Result<Reason, AllocError>
    requires { IsRefusedAs asked.All text.now (refusal_of why) }
    ensures { IfOk result (λ reason. IsTold text.now why reason) }
{
    match why {
        Refusal::TooLong => Ok(Reason::TooLong),
        Refusal::BadUtf8 { offset } => {
            let spot = spot_of(alloc, text, offset)?;
            Ok(Reason::BadUtf8(spot))
        }
        Refusal::Unexpected { offset } => {
            let spot = spot_of(alloc, text, offset)?;
            Ok(Reason::Unexpected(spot))
        }
        Refusal::TooDeep { offset } => {
            let spot = spot_of(alloc, text, offset)?;
            Ok(Reason::TooDeep(spot))
        }
        Refusal::Early { offset, rule } => {
            let spot = spot_of(alloc, text, offset)?;
            Ok(Reason::Early(spot, rule))
        }
        Refusal::NoFunction { .. } => unreachable!(),
    }
}

/// The verdict of the library on a text.
fn judged(alloc: Global, text: &[u8]) -> Result<Verdict, AllocError>
    ensures { IfOk result (λ verdict. IsVerdict text.now verdict) }
{
    let answer = check(alloc, text)?;
    match answer {
        Answer::Script(functions) => Ok(Verdict::Script(functions)),
        Answer::Refused(why) => {
            let reason = reason_of(alloc, text, why)?;
            Ok(Verdict::Refused(reason))
        }
    }
}

/// The functions that are chosen, as the library is told them.
fn wanted_of(chosen: &Choice) -> Wanted<'_>
    ensures { to_show result ≡ session.to_show (choosing.wanted_of chosen.now) }
{
    match chosen {
        Choice::All => Wanted::All,
        Choice::Numbers(numbers) => Wanted::Numbers(numbers),
    }
}

/// The script with those of its functions compiled that these words mean.
fn compiled_script(
    alloc: Global,
    text: &[u8],
    script: &Lazy,
    words: &[FunctionWord],
) -> Result<Compiled, AllocError>
    requires { IsLazyOf text.now script.now }
    ensures { IfOk result (IsCompiledBy IsVerdict IsShownFor words.now text.now) }
{
    let parts = script.parts();
    let chosen = choice_of(alloc, words, &parts.texts, &parts.records, text)?;
    match chosen {
        Chosen::Nothing(place) => Ok(Compiled::NoFunction(place)),
        Chosen::These(choice) => {
            let stencil = script.stencil(alloc, text, wanted_of(&choice))?;
            Ok(Compiled::Script(stencil, choice))
        }
    }
}

/// A text compiled by the library.
fn compiled(alloc: Global, text: &[u8], words: &[FunctionWord]) -> Result<Compiled, AllocError>
    ensures { IfOk result (IsCompiledBy IsVerdict IsShownFor words.now text.now) }
{
    let opened = Lazy::open(alloc, text)?;
    match opened {
        Answer::Script(script) => {
            let compiled = compiled_script(alloc, text, &script, words)?;
            Ok(compiled)
        }
        Answer::Refused(why) => {
            let reason = reason_of(alloc, text, why)?;
            Ok(Compiled::Refused(reason))
        }
    }
}

impl Judge for Library {
    ghost judges = { λ _ text verdict. IsVerdict text verdict };

    ghost shows = { λ _ want text named. IsShownFor want text named };

    ghost verifies = { λ _ image found. IsFound image found };

    fn judge(&self, alloc: Global, text: &[u8]) -> Result<Verdict, AllocError> {
        judged(alloc, text)
    }

    fn compile(
        &self,
        alloc: Global,
        text: &[u8],
        words: &[FunctionWord],
    ) -> Result<Compiled, AllocError> {
        compiled(alloc, text, words)
    }

    fn save(&self, alloc: Global, text: &[u8]) -> Result<Saved, AllocError> {
        saved(alloc, text)
    }

    fn verify(&self, alloc: Global, image: &[u8]) -> Result<Verified, AllocError> {
        verified(alloc, image)
    }
}
