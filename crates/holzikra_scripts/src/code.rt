//! The listing of a script's code.

ghost use Rattle.std.specs.Prelude.{◌≡◌, ◌++◌, ℕ, List, IfOk, codes};
ghost use Rattle.script_image.specs.ScriptLines as lines;
ghost use Rattle.holzikra_listing.specs.Notes.{IsListing};
ghost use Rattle.holzikra_scripts.specs.Written.{HasNoted, IsNoted, IsPlain};
ghost use Rattle.holzikra_scripts.specs.declared.choice.Choice.TheVariants as choice;

use crate::choice::Choice;
use crate::sections::chosen_sections;
use crate::source::SourceText;
use holzikra_depths::depths_of;
use holzikra_finding::{Shown, shown_of};
use holzikra_listing::{Listing, Options, noted_listing};
use holzikra_names::NoSource;
use holzikra_places::push_shown_text;
use script_image::{append_decimal, code_text};
use std::alloc::{AllocError, Global};
use stencil_data::MergedStencil;

/// The line of a file, as `stencilc` writes it.
pub(crate) fn file_line(alloc: Global, name: &str) -> Result<Vec<u8>, AllocError>
    ensures { IfOk result (λ out. out.items ≡ codes "file " ++ name.now ++ codes "\n") }
{
    let mut out = Vec::new(alloc);
    out.extend_from_slice(b"file ")?;
    out.extend_from_slice(name.as_bytes())?;
    out.extend_from_slice(b"\n")?;
    Ok(out)
}

/// The line of a file for a person: its name, as a terminal may show it.
pub(crate) fn shown_file_line(alloc: Global, name: &str) -> Result<Vec<u8>, AllocError> {
    let mut line = String::from_str(alloc, "file ")?;
    push_shown_text(&mut line, name)?;
    line.push('\n')?;
    let mut out = Vec::new(alloc);
    out.extend_from_slice(line.as_bytes())?;
    Ok(out)
}

/// The line of the file and the plain listing of a script's code: what `stencilc code` writes.
pub fn plain_code(alloc: Global, name: &str, stencil: &MergedStencil) -> Result<Vec<u8>, AllocError>
    ensures { IfOk result (λ out. IsPlain lines.code_text name.now stencil.now out.items) }
{
    let mut out = file_line(alloc, name)?;
    code_text(&mut out, stencil)?;
    Ok(out)
}

/// These lines, and behind them a listing.
fn with_listing(head: Vec<u8>, listing: &Listing) -> Result<Vec<u8>, AllocError>
    ensures { IfOk result (λ out. (plain : List ℕ) → IsListing listing.now.noted listing.now.text.items plain → HasNoted plain out.items) }
{
    let mut out = head;
    out.extend_from_slice(&listing.text)?;
    Ok(out)
}

/// These lines, one that says how many scripts are shown whole, and behind them so much of each script in a listing.
fn with_chosen(
    alloc: Global,
    head: Vec<u8>,
    listing: &Listing,
    shown: &[Shown],
) -> Result<Vec<u8>, AllocError> {
    let sections = chosen_sections(alloc, &listing.text, shown)?;
    let mut out = head;
    out.extend_from_slice(b"# ")?;
    append_decimal(&mut out, sections.count as u64)?;
    out.extend_from_slice(b" of ")?;
    append_decimal(&mut out, shown.len() as u64)?;
    out.extend_from_slice(b" scripts\n")?;
    out.extend_from_slice(&sections.text)?;
    Ok(out)
}

/// The listing with notes of a script's code, behind a line with the name of the file; of the functions that are not chosen the first line
/// where they are around others, else nothing. The text is the one that was compiled.
pub fn noted_code(
    alloc: Global,
    name: &str,
    text: &[u8],
    stencil: &MergedStencil,
    source_lines: bool,
    chosen: &Choice,
) -> Result<Vec<u8>, AllocError>
    ensures { IfOk result (λ out. chosen.now ≡ choice.All → IsNoted lines.code_text stencil.now out.items) }
{
    let source = SourceText::of(alloc, text)?;
    let depths = depths_of(alloc, stencil)?;
    let options = Options {
        source_lines,
        depths: &depths,
    };
    let listing = noted_listing(alloc, stencil, &source, options)?;
    let head = shown_file_line(alloc, name)?;
    match chosen {
        Choice::All => {
            let out = with_listing(head, &listing)?;
            Ok(out)
        }
        Choice::Numbers(numbers) => {
            let shown = shown_of(alloc, &stencil.records, numbers)?;
            let out = with_chosen(alloc, head, &listing, &shown)?;
            Ok(out)
        }
    }
}

/// The listing with notes of all code of a stencil that came without its source text, behind a line with the name of the file.
pub(crate) fn noted_image(
    alloc: Global,
    name: &str,
    stencil: &MergedStencil,
) -> Result<Vec<u8>, AllocError>
    ensures { IfOk result (λ out. IsNoted lines.code_text stencil.now out.items) }
{
    let depths = depths_of(alloc, stencil)?;
    let options = Options {
        source_lines: false,
        depths: &depths,
    };
    let listing = noted_listing(alloc, stencil, &NoSource, options)?;
    let head = shown_file_line(alloc, name)?;
    let out = with_listing(head, &listing)?;
    Ok(out)
}
