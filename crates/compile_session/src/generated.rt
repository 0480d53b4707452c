//! What the answers to the two commands over generated texts share: the parts of their lines, and the script that a text is.

ghost use Rattle.std.specs.Prelude.{◌≡◌, ◌≤◌, ◌++◌, ℕ, length, IfOk, OnOk};
ghost use Rattle.std.specs.Fmt.{decimal};
ghost use Rattle.script_grammar.specs.Tree.{Stmts};
ghost use Rattle.session_specs.specs.Answer as answer;
ghost use Rattle.session_specs.specs.Answer.{most_bytes};
ghost use Rattle.session_specs.specs.Sources.{HasAll};
ghost use Rattle.session_words.specs.Asked as asked;
ghost use Rattle.compile_first_pass.specs.Passes.{IsSyntaxOf};

use crate::source::{SourceText, read_source};
use compile_first_pass::SyntaxScript;
use script_image::append_decimal;
use session_words::Want;
use std::alloc::{AllocError, Global};

/// Appends what is printed before the counts: the number and the size that the text was generated from.
pub(crate) fn append_numbers(out: &mut Vec<u8>, number: u32, size: u32) -> Result<(), AllocError>
    ensures { OnOk result (out.new.items ≡ out.old.items ++ answer.numbers_text number size) }
{
    append_decimal(out, u64::from(number))?;
    out.extend_from_slice(b" ")?;
    append_decimal(out, u64::from(size))?;
    out.extend_from_slice(b": ")?;
    Ok(())
}

/// Appends the decimal digits of a number.
fn append_wide(alloc: Global, out: &mut Vec<u8>, number: u128) -> Result<(), AllocError>
    ensures { OnOk result (out.new.items ≡ out.old.items ++ decimal number) }
{
    let digits = number.to_string(alloc)?;
    out.extend_from_slice(digits.as_bytes())?;
    Ok(())
}

/// Appends how many functions and instructions there are.
pub(crate) fn append_counts(
    alloc: Global,
    out: &mut Vec<u8>,
    functions: u64,
    instructions: u128,
) -> Result<(), AllocError>
    ensures { OnOk result (out.new.items ≡ out.old.items ++ answer.counts_text functions instructions) }
{
    append_decimal(out, functions)?;
    out.extend_from_slice(b" functions, ")?;
    append_wide(alloc, out, instructions)?;
    out.extend_from_slice(b" instructions\n")?;
    Ok(())
}

/// The script that a text is, where it is one.
pub(crate) fn script_in(alloc: Global, bytes: &[u8]) -> Result<SyntaxScript, AllocError>
    requires short { length bytes.now ≤ most_bytes }
    requires script { (items : Stmts) × (count : ℕ) × HasAll bytes.now asked.All items count }
    ensures { IfOk result (IsSyntaxOf bytes.now) }
{
    let source = read_source(alloc, &Want::All, bytes)?;
    match source {
        SourceText::Script(script) => Ok(script),
        SourceText::Refused(_) => unreachable!(),
    }
}
