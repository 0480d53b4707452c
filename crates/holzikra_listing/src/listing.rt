//! The whole listing.

ghost use Rattle.std.specs.Prelude.{IfOk, List};
ghost use Rattle.stencil_data.specs.Named.{NamedMerged};
ghost use Rattle.stencil_data.specs.StandsFor.{MergedStandsFor};
ghost use Rattle.bytecode_buf.specs.Command.{Listed};
ghost use Rattle.script_image.specs.Listed.{ShowsListed};
ghost use Rattle.script_image.specs.ScriptLines as lines;
ghost use Rattle.holzikra_listing.specs.Notes.{IsListing};

use crate::notes::{Around, Known, lazy_note, part_note};
use crate::page::Page;
use crate::taking::without_notes;
use bytecode_buf::decode_at;
use holzikra_flow::Environments;
use holzikra_names::{Source, append_chars, kind_words};
use script_image::{append_decimal, code_text};
use std::alloc::{AllocError, Global};
use stencil_data::{Entry, FunctionStencil, MergedStencil};

/// How many characters of a source line are shown.
const SHOWN: usize = 100;

/// A listing of code.
#[derive(Drop)]
pub struct Listing {
    pub text: Vec<u8>,
    /// Whether it has notes; else it is the plain listing.
    pub noted: bool,
}

/// What a listing shows besides.
#[derive(Clone, Copy)]
pub struct Options<'a> {
    /// Whether the line of the source in which a function starts stands in front of its code.
    pub source_lines: bool,
    /// How deep the stack of the script gets, and then of each function, in order of number, as far as that is known.
    pub depths: &'a [Option<u64>],
}

impl Options<'_> {
    fn depth(&self, number: usize) -> Option<u64> {
        self.depths.get(number).copied().flatten()
    }
}

/// Adds the line of the source in which a function starts: its number, a bar and its text.
fn add_source_line<S: Source>(
    alloc: Global,
    page: &mut Page<'_>,
    source: &S,
    offset: u32,
) -> Result<(), AllocError> {
    let Some(spot) = source.spot(offset) else {
        return Ok(());
    };
    let Some(bytes) = source.line_of(offset) else {
        return Ok(());
    };
    let Ok(text) = str::from_utf8(bytes) else {
        return Ok(());
    };
    let mut line = Vec::new(alloc);
    append_decimal(&mut line, spot.line as u64)?;
    line.extend_from_slice(b" | ")?;
    append_chars(&mut line, text, SHOWN)?;
    page.added(&line)
}

/// Puts the lines of the code of a function on the page.
fn put_code<S: Source>(
    alloc: Global,
    page: &mut Page<'_>,
    around: Around<'_>,
    source: &S,
    known: Known,
    part: &FunctionStencil,
) -> Result<(), AllocError> {
    let mut known = known;
    let code = part.code.as_slice();
    let mut at = 0;
    for _ in 0..code.len() {
        let Some(instr) = decode_at(code, at) else {
            break;
        };
        let mut note = Vec::new(alloc);
        known.instruction_note(alloc, &mut note, around, source, at, instr)?;
        page.line(&note)?;
        at = instr.next;
    }
    for _ in 0..part.notes.len() {
        page.line(b"")?;
    }
    Ok(())
}

/// Puts the lines of a compiled function, or of the script, on the page.
fn put_part<S: Source>(
    alloc: Global,
    page: &mut Page<'_>,
    environments: &mut Environments,
    merged: &MergedStencil,
    source: &S,
    number: u32,
    part: &FunctionStencil,
) -> Result<(), AllocError> {
    let known = Known::of(alloc, environments, number, part)?;
    let around = Around {
        merged,
        environments: &*environments,
    };
    put_code(alloc, page, around, source, known, part)
}

/// Puts the lines of the function on the page that has this place among the entries.
fn put_function<S: Source>(
    alloc: Global,
    page: &mut Page<'_>,
    environments: &mut Environments,
    merged: &MergedStencil,
    source: &S,
    options: Options<'_>,
    index: usize,
) -> Result<(), AllocError> {
    let mut note = Vec::new(alloc);
    match merged.entries.get(index) {
        Some(Entry::Compiled(part)) => {
            let depth = options.depth(index.saturating_add(1));
            part_note(&mut note, source, kind_words(part.kind), part, depth)?;
            page.line(&note)?;
            if options.source_lines {
                add_source_line(alloc, page, source, part.extent.start)?;
            }
            let number = u32::try_from(index.saturating_add(1)).unwrap_or(u32::MAX);
            put_part(alloc, page, environments, merged, source, number, part)
        }
        _ => {
            if let Some(lazy) = merged.records.get(index) {
                lazy_note(&mut note, source, lazy)?;
            }
            page.line(&note)
        }
    }
}

/// The plain listing with notes. Nothing is claimed of it: `noted_listing` takes the notes off again.
fn with_notes<S: Source>(
    alloc: Global,
    merged: &MergedStencil,
    source: &S,
    options: Options<'_>,
    plain: &[u8],
) -> Result<Vec<u8>, AllocError> {
    let mut page = Page::new(alloc, plain);
    let mut environments = Environments::of(alloc, merged)?;
    let mut note = Vec::new(alloc);
    part_note(&mut note, source, "script", &merged.top, options.depth(0))?;
    page.line(&note)?;
    put_part(
        alloc,
        &mut page,
        &mut environments,
        merged,
        source,
        0,
        &merged.top,
    )?;
    for index in 0..merged.records.len().min(merged.entries.len()) {
        put_function(
            alloc,
            &mut page,
            &mut environments,
            merged,
            source,
            options,
            index,
        )?;
    }
    page.finish()
}

/// The listing of the code of all scripts of a merged stencil with notes: at a script its kind, its place and its counts, at an
/// instruction the name of its operand, the place of the function that it makes, where jumps to it come from, and whether no path
/// leads to it.
///
/// It takes time in proportion to the listing, up to the logarithms of sorting jumps and names, and memory for three listings. It
/// is an error only where memory runs out.
pub fn noted_listing<S: Source>(
    alloc: Global,
    merged: &MergedStencil,
    source: &S,
    options: Options<'_>,
) -> Result<Listing, AllocError>
    ensures { IfOk result (λ listing. (named : NamedMerged (List Listed)) → MergedStandsFor ShowsListed merged.now named → IsListing listing.noted listing.text.items (lines.code_text named)) }
{
    let mut plain = Vec::new(alloc);
    code_text(&mut plain, merged)?;
    let noted = with_notes(alloc, merged, source, options, &plain)?;
    let taken = without_notes(alloc, &noted)?;
    if taken.as_slice() == plain.as_slice() {
        Ok(Listing {
            text: noted,
            noted: true,
        })
    } else {
        Ok(Listing {
            text: plain,
            noted: false,
        })
    }
}
