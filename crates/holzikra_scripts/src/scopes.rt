//! The drawings and the listing of a script's scopes.

ghost use Rattle.std.specs.Prelude.{IfOk};
ghost use Rattle.script_image.specs.ScriptLines as lines;
ghost use Rattle.holzikra_scripts.specs.Written.{IsPlain};

use crate::choice::Choice;
use crate::code::{file_line, shown_file_line};
use crate::source::SourceText;
use holzikra_finding::{Shown, shown_of};
use holzikra_places::push_shown_text;
use holzikra_scopes::{scope_graph, scope_tree};
use script_image::scope_text;
use std::alloc::{AllocError, Global};
use stencil_data::MergedStencil;

/// The line of the file and the plain listing of a script's scopes: what `stencilc scopes` writes.
pub fn plain_scopes(
    alloc: Global,
    name: &str,
    stencil: &MergedStencil,
) -> Result<Vec<u8>, AllocError>
    ensures { IfOk result (λ out. IsPlain lines.scope_text name.now stencil.now out.items) }
{
    let mut out = file_line(alloc, name)?;
    scope_text(&mut out, stencil)?;
    Ok(out)
}

/// What is drawn of the script and of each function; of all that has no place there all is.
pub(crate) fn shown_for(
    alloc: Global,
    stencil: &MergedStencil,
    chosen: &Choice,
) -> Result<Vec<Shown>, AllocError> {
    match chosen {
        Choice::All => Ok(Vec::new(alloc)),
        Choice::Numbers(numbers) => shown_of(alloc, &stencil.records, numbers),
    }
}

/// The tree of a script's functions, scopes and bindings, behind a line with the name of the file; of the functions that are not chosen the
/// first line where they are around others, else nothing. The text is the one that was compiled.
pub fn drawn_scopes(
    alloc: Global,
    name: &str,
    text: &[u8],
    stencil: &MergedStencil,
    chosen: &Choice,
) -> Result<Vec<u8>, AllocError> {
    let shown = shown_for(alloc, stencil, chosen)?;
    let source = SourceText::of(alloc, text)?;
    let mut out = shown_file_line(alloc, name)?;
    scope_tree(alloc, stencil, &source, &shown, &mut out)?;
    Ok(out)
}

/// The graph of a script's functions and of who closes over what, in the language DOT, behind a comment with the name of the file;
/// without the functions that are neither chosen nor around others.
pub fn graph_of_scopes(
    alloc: Global,
    name: &str,
    stencil: &MergedStencil,
    chosen: &Choice,
) -> Result<Vec<u8>, AllocError> {
    let shown = shown_for(alloc, stencil, chosen)?;
    let mut line = String::from_str(alloc, "// ")?;
    push_shown_text(&mut line, name)?;
    line.push('\n')?;
    let mut out = Vec::new(alloc);
    out.extend_from_slice(line.as_bytes())?;
    scope_graph(alloc, stencil, &shown, &mut out)?;
    Ok(out)
}
