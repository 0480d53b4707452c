//! What is printed for a generated text whose functions are compiled, discarded and compiled again.

ghost use Rattle.std.specs.Prelude.{◌≡◌, ◌≤◌, ◌++◌, ℕ, List, codes, IfOk};
ghost use Rattle.session_specs.specs.Answer as answer;
ghost use Rattle.session_words.specs.Asked as asked;
ghost use Rattle.compile_session.specs.Printed.{texts_in};
ghost use Rattle.compile_session.specs.Files.{CountsChurn, SettlesWork};

use crate::answer::{WholeAnswer, one_line};
use crate::generated::{append_counts, append_numbers, script_in};
use compile_initial::initial;
use helper_tasks::Gate;
use session_churn::churn;
use session_trial::generated_text;
use std::alloc::{AllocError, Global};
use std::sync::Wait;
use std::thread::Threads;

/// The line of a text whose functions were compiled again and again.
fn churn_line(
    alloc: Global,
    number: u32,
    size: u32,
    functions: u64,
    instructions: u128,
) -> Result<Vec<u8>, AllocError>
    ensures { IfOk result (λ text. text.items ≡ codes "churn " ++ answer.numbers_text number size ++ answer.counts_text functions instructions) }
{
    let mut out = Vec::from_slice(alloc, b"churn ")?;
    append_numbers(&mut out, number, size)?;
    append_counts(alloc, &mut out, functions, instructions)?;
    Ok(out)
}

/// What `churn` prints. Workers compile all functions of the text, discard them and compile them again; the text is a script
/// without errors, so there is no refusal.
pub(crate) fn churn_answer<R: Threads + Wait + Sync, G: Gate>(
    rt: &R,
    alloc: Global,
    number: u32,
    size: u32,
    workers: u32,
    gate: &G,
) -> Result<WholeAnswer, AllocError>
    requires size { size ≤ 100000 }
    requires workers { (1 ≤ workers) × (workers ≤ 16) }
    ensures settles { IfOk result (λ given. (by : ℕ) (held : List ℕ → List ℕ)
        → SettlesWork (asked.Churn number size by) held (texts_in given.files.items) given.refused) }
    ensures counts { IfOk result (λ given. CountsChurn given.compiled) }
{
    let text = generated_text(alloc, number, size)?;
    let bytes = text.as_slice();
    let script = script_in(alloc, bytes)?;
    let functions = script.functions.len() as u64;
    let before = initial(alloc, script, bytes.len() as u32)?;
    let churned = churn(rt, alloc, bytes, &before, workers, gate)?;
    let line = churn_line(alloc, number, size, functions, churned.instructions)?;
    let answer = one_line(alloc, line, churned.compiled)?;
    Ok(answer)
}
