//! Whether texts are scripts without errors, and where the first fault of each is.
//!
//! [`judged`] is the one call of the library, with its contract.

ghost use Rattle.std.specs.Prelude.{IfOk};
ghost use Rattle.stencil.specs.Answers.{IsChecked};

use anyhow::Result;
use std::alloc::{AllocError, Global};
use std::io::Print;
use stencil::{Answer, Refusal, check};

/// How many functions a text has, or its first fault: by the grammar, and by the rules of early errors.
fn judged(alloc: Global, text: &[u8]) -> Result<Answer<usize>, AllocError>
    ensures { IfOk result (IsChecked text.now) }
{
    check(alloc, text)
}

/// Prints the answer for a text.
fn print_answer(rt: &impl Print, alloc: Global, text: &str) -> Result<()> {
    match judged(alloc, text.as_bytes())? {
        Answer::Script(count) => println!(rt; "{text}: a script with {count} functions")?,
        Answer::Refused(Refusal::Early { offset, rule }) => {
            println!(rt; "{text}: early error {rule} at byte {offset}")?;
        }
        Answer::Refused(Refusal::Unexpected { offset }) => {
            println!(rt; "{text}: no script goes on so at byte {offset}")?;
        }
        Answer::Refused(why) => println!(rt; "{text}: {why:?}")?,
    }
    Ok(())
}

/// Three texts, of which one is a script.
pub(crate) fn show(rt: &impl Print, alloc: Global) -> Result<()> {
    print_answer(rt, alloc, "let double = x => x + x;")?;
    print_answer(rt, alloc, "let total = 1; let total = 2;")?;
    print_answer(rt, alloc, "x = 1.5;")?;
    Ok(())
}
