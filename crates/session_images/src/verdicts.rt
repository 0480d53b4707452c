//! Whether the code in an image is sound, script by script.

ghost use Rattle.std.specs.Prelude.{◌≡◌, ◌++◌, ◌∷◌, [], Err, List, ℕ, IfOk, OnOk};
ghost use Rattle.code_check.specs.Verdicts.{soundness};
ghost use Rattle.stencil_xdr_read.specs.declared.fault.ImageFault.TheVariants.{NoImage};
ghost use Rattle.session_image_specs.specs.Images as answer;
ghost use Rattle.session_image_specs.specs.Images.{AreVerified, AreVerifiedLines, IsNoImage};
ghost use Rattle.session_images.specs.Appended.{AppendsVerdict};

use code_check::{Verdict, verify_code};
use script_image::append_decimal;
use std::alloc::{AllocError, Global};
use stencil_data::{Entry, FunctionStencil};
use stencil_xdr_read::{ImageFault, read_image};

/// Appends what is printed of a verdict.
fn append_soundness(out: &mut Vec<u8>, verdict: Verdict) -> Result<(), AllocError>
    ensures { OnOk result (out.new.items ≡ out.old.items ++ answer.soundness_text (soundness verdict)) }
{
    match verdict {
        Verdict::Sound { depth } => {
            out.extend_from_slice(b"sound depth ")?;
            append_decimal(out, depth)?;
            Ok(())
        }
        Verdict::Unsound => {
            out.extend_from_slice(b"unsound")?;
            Ok(())
        }
    }
}

/// Appends the line of the script of this number.
fn append_line(out: &mut Vec<u8>, number: u64, verdict: Verdict) -> Result<(), AllocError>
    ensures { OnOk result (out.new.items ≡ out.old.items ++ answer.verified_line number (soundness verdict)) }
{
    out.extend_from_slice(b"script ")?;
    append_decimal(out, number)?;
    out.extend_from_slice(b" ")?;
    append_soundness(out, verdict)?;
    out.extend_from_slice(b"\n")?;
    Ok(())
}

fn is_unsound(verdict: Verdict) -> bool
    ensures { result ≡ answer.is_unsound (soundness verdict) }
{
    match verdict {
        Verdict::Sound { .. } => false,
        Verdict::Unsound => true,
    }
}

/// Appends the line of a compiled script, and answers whether its code is unsound.
fn append_script(
    alloc: Global,
    out: &mut Vec<u8>,
    number: u64,
    part: &FunctionStencil,
) -> Result<bool, AllocError>
    ensures { IfOk result (AppendsVerdict number part.now.code part.now.notes out.old.items out.new.items) }
{
    let verdict = verify_code(alloc, &part.code, &part.notes)?;
    append_line(out, number, verdict)?;
    Ok(is_unsound(verdict))
}

/// Appends the line of a function where it is compiled, and answers whether its code is unsound.
fn append_entry(
    alloc: Global,
    out: &mut Vec<u8>,
    number: u64,
    entry: &Entry,
) -> Result<bool, AllocError>
    ensures { IfOk result (λ unsound. (lines : List ℕ) × AreVerified number (entry.now ∷ []) lines unsound
        × (out.new.items ≡ out.old.items ++ lines)) }
{
    match entry {
        Entry::Lazy => Ok(false),
        Entry::Compiled(part) => append_script(alloc, out, number, part),
    }
}

/// Appends the lines of the functions that are compiled, and answers whether the code of one is unsound.
fn append_functions(alloc: Global, out: &mut Vec<u8>, entries: &[Entry]) -> Result<bool, AllocError>
    ensures { IfOk result (λ unsound. (lines : List ℕ) × AreVerified 1 entries.now lines unsound × (out.new.items ≡ out.old.items ++ lines)) }
{
    let mut unsound = false;
    for index in 0..entries.len() {
        let number = index as u64 + 1;
        let is_unsound = append_entry(alloc, out, number, &entries[index])?;
        unsound = unsound || is_unsound;
    }
    Ok(unsound)
}

/// Appends a line for each script that is compiled in an image, and answers whether the code of one is unsound. After an error
/// nothing is said of what was appended.
pub fn append_verdicts(alloc: Global, out: &mut Vec<u8>, bytes: &[u8]) -> Result<bool, ImageFault>
    ensures verdicts { IfOk result (λ unsound. (lines : List ℕ) × AreVerifiedLines bytes.now lines unsound
        × (out.new.items ≡ out.old.items ++ lines)) }
    ensures none { result ≡ Err NoImage → IsNoImage bytes.now }
{
    let stencil = read_image(alloc, bytes)?;
    let top = append_script(alloc, out, 0, &stencil.top)?;
    let inner = append_functions(alloc, out, &stencil.entries)?;
    Ok(top || inner)
}
