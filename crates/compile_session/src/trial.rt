//! What is printed for a trial of a generated text.

ghost use Rattle.std.specs.Prelude.{◌≡◌, ◌≤◌, ◌++◌, ◌∷◌, ◌*◌, [], ℕ, List, codes, IfOk};
ghost use Rattle.std.specs.Fmt.{decimal};
ghost use Rattle.session_specs.specs.Answer as answer;
ghost use Rattle.session_words.specs.Asked as asked;
ghost use Rattle.compile_specs.specs.Shown as shown;
ghost use Rattle.compile_shown.specs.Counting.{trues};
ghost use Rattle.compile_shown.specs.Shown.{ShowsWanted};
ghost use Rattle.compile_session.specs.Printed.{texts_in};
ghost use Rattle.compile_session.specs.Compiled.{IsCompiledBy};
ghost use Rattle.compile_session.specs.Files.{CountsTrial, SettlesWork};
ghost use Rattle.compile_session.specs.Starts.{IsScriptStart};

use crate::answer::{CommandAnswer, one_line};
use crate::generated::{append_counts, append_numbers, script_in};
use crate::start::{ScriptStart, script_start};
use compile_wanted::Wanted;
use helper_tasks::Gate;
use script_image::{append_decimal, instructions};
use session_requests::{ScriptWork, compiled_by, hands_for, request_all, requests_of, shown_in};
use session_trial::generated_text;
use session_words::{Order, Want};
use std::alloc::{AllocError, Global};
use std::marker::Brand;
use std::sync::Wait;
use std::thread::Threads;
use stencil_board::Sources;
use stencil_data::MergedStencil;

/// The line of a trial of a text of n bytes.
fn trial_line(
    alloc: Global,
    number: u32,
    size: u32,
    bytes: u64,
    functions: u64,
    instructions: u128,
) -> Result<Vec<u8>, AllocError>
    ensures { IfOk result (λ text. text.items
        ≡ codes "trial " ++ answer.numbers_text number size ++ decimal bytes ++ codes " bytes, " ++ answer.counts_text functions instructions) }
{
    let mut out = Vec::from_slice(alloc, b"trial ")?;
    append_numbers(&mut out, number, size)?;
    append_decimal(&mut out, bytes)?;
    out.extend_from_slice(b" bytes, ")?;
    append_counts(alloc, &mut out, functions, instructions)?;
    Ok(out)
}

/// A script all of whose functions were compiled.
#[derive(Drop)]
struct WholeScript {
    stencil: MergedStencil,
    /// How many functions it has.
    shown: u64,
    /// How many functions workers compiled, each as often as it was compiled.
    compiled: u64,
}

/// The script of these bytes, all of whose functions are compiled by so many workers.
fn compiled_whole<R: Threads + Wait + Sync, G: Gate, N: Sources + Send + Sync>(
    rt: &R,
    alloc: Global,
    bytes: &[u8],
    start: &ScriptStart,
    workers: u32,
    gate: &G,
) -> Result<WholeScript, AllocError>
    requires picked { N.files ≡ record { bytes = bytes.now; texts = start.now.initial.parts.texts } ∷ [] }
    requires start { IsScriptStart asked.All bytes.now start.now }
    requires workers { (1 ≤ workers) × (workers ≤ 16) }
    ensures shows { IfOk result (λ whole. ShowsWanted shown.All bytes.now start.now.initial whole.stencil) }
    ensures shown { IfOk result (λ whole. whole.shown ≡ trues start.now.shown.items) }
    ensures most { IfOk result (λ whole. whole.compiled ≤ workers * whole.shown) }
{
    let work = ScriptWork::<N>::new(alloc, 0, bytes, &start.initial, &start.shown)?;
    let works = [Some(work)];
    let requests = requests_of(alloc, &works, &[0], Wanted::All, Order::First)?;
    let hands = hands_for(alloc, &works, workers)?;
    let mut hands = request_all(rt, alloc, &works, &requests, hands, gate)?;
    let stencil = hands[0].merged(alloc, &works, 0)?;
    Ok(WholeScript {
        stencil,
        shown: shown_in(&works[0]),
        compiled: compiled_by(&hands),
    })
}

/// What `trial` prints. All functions of the text are compiled, by so many workers; it is a script without errors, so there is no
/// refusal.
pub(crate) fn trial_answer<R: Threads + Wait + Sync, G: Gate>(
    rt: &R,
    alloc: Global,
    number: u32,
    size: u32,
    workers: u32,
    gate: &G,
) -> Result<CommandAnswer, AllocError>
    requires size { size ≤ 100000 }
    requires workers { (1 ≤ workers) × (workers ≤ 16) }
    ensures settles { IfOk result (λ given. (by : ℕ) (held : List ℕ → List ℕ)
        → SettlesWork (asked.Trial number size by) held (texts_in given.answer.files.items) given.answer.refused) }
    ensures counts { IfOk result (λ given. CountsTrial number size given.answer.compiled) }
    ensures compiled { IfOk result (λ given. IsCompiledBy workers given.answer.compiled given.compiled) }
{
    let text = generated_text(alloc, number, size)?;
    let bytes = text.as_slice();
    let script = script_in(alloc, bytes)?;
    let functions = script.functions.len() as u64;
    let start = script_start(alloc, &Want::All, bytes, script)?;
    let whole = compiled_whole::<R, G, Brand>(rt, alloc, bytes, &start, workers, gate)?;
    let count = instructions(&whole.stencil);
    let line = trial_line(alloc, number, size, bytes.len() as u64, functions, count)?;
    let answer = one_line(alloc, line, whole.shown)?;
    Ok(CommandAnswer {
        answer,
        compiled: whole.compiled,
    })
}
