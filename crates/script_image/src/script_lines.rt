//! The lines of each script of a file.

ghost use Rattle.std.specs.Prelude.{◌≡◌, ◌+◌, ◌<◌, ◌++◌, codes, map, option_map, OnOk};
ghost use Rattle.std.specs.Fmt.{decimal};
ghost use Rattle.stencil_data.specs.StandsFor.{named_closed, named_record};
ghost use Rattle.script_image.specs.Listed.{listed_entry, listed_script};
ghost use Rattle.script_image.specs.Listings.{lines_of};
ghost use Rattle.script_image.specs.Pieces.{from_script, header_line, part_at, script_count};
ghost use Rattle.script_image.specs.Quoted.{list_text, with_commas};
ghost use Rattle.script_image.specs.ScriptLines as lines;

use crate::chunk::{Chunk, flush, put, put_byte};
use crate::code_lines::append_code;
use crate::quoted::{put_decimal, put_extent, put_name, put_quoted, text_at};
use crate::scope_lines::append_scopes;
use std::alloc::AllocError;
use stencil_data::{ClosedName, Entry, Extent, FunctionStencil, LazyRecord, MergedStencil, Text};

/// What is listed of a compiled script.
#[derive(Clone, Copy)]
pub enum Listing {
    Code,
    Scopes,
}

/// Appends what stands under the line of a compiled script.
fn append_lines(
    out: &mut Vec<u8>,
    listing: Listing,
    texts: &[Text],
    script: &FunctionStencil,
) -> Result<(), AllocError>
    ensures { OnOk result (out.new.items ≡ out.old.items ++ lines_of listing (listed_script texts.now script.now)) }
{
    match listing {
        Listing::Code => append_code(out, texts, script)?,
        Listing::Scopes => append_scopes(out, texts, script)?,
    }
    Ok(())
}

/// Puts the line of a script as far as all scripts have it after a chunk.
fn put_script(
    out: &mut Vec<u8>,
    chunk: &mut Chunk,
    number: u64,
    how: &str,
    extent: Extent,
) -> Result<(), AllocError>
    ensures { OnOk result (out.new.items ++ chunk.new.items ≡ (out.old.items ++ chunk.old.items) ++ lines.script_text number how.now extent) }
{
    put(out, chunk, b"script ")?;
    put_decimal(out, chunk, number)?;
    put_byte(out, chunk, b' ')?;
    put(out, chunk, how.as_bytes())?;
    put_byte(out, chunk, b' ')?;
    put_extent(out, chunk, extent)
}

/// Puts numbers with a comma between two after a chunk, or `-` where there is none.
fn put_numbers(out: &mut Vec<u8>, chunk: &mut Chunk, numbers: &[u32]) -> Result<(), AllocError>
    ensures { OnOk result (out.new.items ++ chunk.new.items ≡ (out.old.items ++ chunk.old.items) ++ list_text (map decimal numbers.now)) }
{
    match numbers.split_first() {
        None => put_byte(out, chunk, b'-'),
        Some((first, rest)) => {
            put_decimal(out, chunk, u64::from(*first))?;
            put_further_numbers(out, chunk, rest)
        }
    }
}

fn put_further_numbers(
    out: &mut Vec<u8>,
    chunk: &mut Chunk,
    numbers: &[u32],
) -> Result<(), AllocError>
    ensures { OnOk result (out.new.items ++ chunk.new.items ≡ (out.old.items ++ chunk.old.items) ++ with_commas (map decimal numbers.now)) }
{
    for number in numbers {
        put_byte(out, chunk, b',')?;
        put_decimal(out, chunk, u64::from(*number))?;
    }
    Ok(())
}

/// Puts a name that is closed over after a chunk, after the number of its scope.
fn put_closed_name(
    out: &mut Vec<u8>,
    chunk: &mut Chunk,
    texts: &[Text],
    name: ClosedName,
) -> Result<(), AllocError>
    ensures { OnOk result (out.new.items ++ chunk.new.items ≡ (out.old.items ++ chunk.old.items) ++ lines.closed_text (named_closed texts.now name)) }
{
    put_decimal(out, chunk, u64::from(name.scope))?;
    put_byte(out, chunk, b':')?;
    put_quoted(out, chunk, text_at(texts, u64::from(name.atom)))
}

/// Puts closed names with a comma between two after a chunk, or `-` where there is none.
fn put_closed(
    out: &mut Vec<u8>,
    chunk: &mut Chunk,
    texts: &[Text],
    names: &[ClosedName],
) -> Result<(), AllocError>
    ensures { OnOk result (out.new.items ++ chunk.new.items ≡ (out.old.items ++ chunk.old.items) ++ list_text (map lines.closed_text (map (named_closed texts.now) names.now))) }
{
    match names.split_first() {
        None => put_byte(out, chunk, b'-'),
        Some((first, rest)) => {
            put_closed_name(out, chunk, texts, *first)?;
            put_further_closed(out, chunk, texts, rest)
        }
    }
}

fn put_further_closed(
    out: &mut Vec<u8>,
    chunk: &mut Chunk,
    texts: &[Text],
    names: &[ClosedName],
) -> Result<(), AllocError>
    ensures { OnOk result (out.new.items ++ chunk.new.items ≡ (out.old.items ++ chunk.old.items) ++ with_commas (map lines.closed_text (map (named_closed texts.now) names.now))) }
{
    for name in names {
        put_byte(out, chunk, b',')?;
        put_closed_name(out, chunk, texts, *name)?;
    }
    Ok(())
}

/// Puts what the line of a function that is not compiled tells of it after its name, to the end of the line. Most functions have none
/// in them and close over no name.
fn put_inside(
    out: &mut Vec<u8>,
    chunk: &mut Chunk,
    texts: &[Text],
    lazy: &LazyRecord,
) -> Result<(), AllocError>
    ensures { OnOk result (out.new.items ++ chunk.new.items ≡ (out.old.items ++ chunk.old.items) ++ codes " inner " ++ list_text (map decimal lazy.now.inner)
        ++ codes " closed " ++ list_text (map lines.closed_text (map (named_closed texts.now) lazy.now.closed)) ++ codes "\n") }
{
    if lazy.inner.is_empty() && lazy.closed.is_empty() {
        return put(out, chunk, b" inner - closed -\n");
    }
    put(out, chunk, b" inner ")?;
    put_numbers(out, chunk, &lazy.inner)?;
    put(out, chunk, b" closed ")?;
    put_closed(out, chunk, texts, &lazy.closed)?;
    put_byte(out, chunk, b'\n')
}

/// Puts the line of the function of this number, which is not compiled, after a chunk.
fn put_record(
    out: &mut Vec<u8>,
    chunk: &mut Chunk,
    texts: &[Text],
    number: u64,
    lazy: &LazyRecord,
) -> Result<(), AllocError>
    ensures { OnOk result (out.new.items ++ chunk.new.items ≡ (out.old.items ++ chunk.old.items) ++ lines.lazy_line number (named_record texts.now lazy.now)) }
{
    put_script(out, chunk, number, "lazy", lazy.extent)?;
    put_byte(out, chunk, b' ')?;
    put_name(out, chunk, texts, lazy.name)?;
    put_inside(out, chunk, texts, lazy)
}

/// Appends the line of the function of this number, which is not compiled.
fn append_record(
    out: &mut Vec<u8>,
    texts: &[Text],
    number: u64,
    lazy: &LazyRecord,
) -> Result<(), AllocError>
    ensures { OnOk result (out.new.items ≡ out.old.items ++ lines.lazy_line number (named_record texts.now lazy.now)) }
{
    let mut chunk = Chunk::new();
    put_record(out, &mut chunk, texts, number, lazy)?;
    flush(out, &mut chunk)
}

/// Appends the line of the compiled function of this number.
fn append_function_line(
    out: &mut Vec<u8>,
    texts: &[Text],
    number: u64,
    script: &FunctionStencil,
) -> Result<(), AllocError>
    ensures { OnOk result (out.new.items ≡ out.old.items ++ lines.function_line number (listed_script texts.now script.now)) }
{
    let mut chunk = Chunk::new();
    put_script(out, &mut chunk, number, "function", script.extent)?;
    put_byte(out, &mut chunk, b' ')?;
    put_name(out, &mut chunk, texts, script.name)?;
    put_byte(out, &mut chunk, b'\n')?;
    flush(out, &mut chunk)
}

/// Appends the lines of the compiled function of this number.
fn append_compiled(
    out: &mut Vec<u8>,
    listing: Listing,
    texts: &[Text],
    number: u64,
    script: &FunctionStencil,
) -> Result<(), AllocError>
    ensures { OnOk result (out.new.items ≡ out.old.items ++ lines.function_line number (listed_script texts.now script.now)
        ++ lines_of listing (listed_script texts.now script.now)) }
{
    append_function_line(out, texts, number, script)?;
    append_lines(out, listing, texts, script)?;
    Ok(())
}

/// Appends the lines of the function of this number.
fn append_function(
    out: &mut Vec<u8>,
    listing: Listing,
    texts: &[Text],
    number: u64,
    lazy: &LazyRecord,
    entry: &Entry,
) -> Result<(), AllocError>
    ensures { OnOk result (out.new.items ≡ out.old.items
        ++ lines.script_lines (lines_of listing) number (named_record texts.now lazy.now) (listed_entry texts.now entry.now)) }
{
    match entry {
        Entry::Lazy => append_record(out, texts, number, lazy)?,
        Entry::Compiled(script) => append_compiled(out, listing, texts, number, script)?,
    }
    Ok(())
}

/// Appends the line of the file's own part.
fn append_top_line(out: &mut Vec<u8>, top: &FunctionStencil) -> Result<(), AllocError>
    ensures { OnOk result (out.new.items ≡ out.old.items ++ lines.top_line top.now.extent) }
{
    let mut chunk = Chunk::new();
    put_script(out, &mut chunk, 0, "top", top.extent)?;
    put_byte(out, &mut chunk, b'\n')?;
    flush(out, &mut chunk)
}

/// Appends the lines of the file's own part.
fn append_top(out: &mut Vec<u8>, listing: Listing, merged: &MergedStencil) -> Result<(), AllocError>
    ensures { OnOk result (out.new.items ≡ out.old.items ++ lines.top_line merged.now.top.extent
        ++ lines_of listing (listed_script merged.now.texts merged.now.top)) }
{
    append_top_line(out, &merged.top)?;
    append_lines(out, listing, &merged.texts, &merged.top)?;
    Ok(())
}

/// The compiled script of this number, 0 for the file's own part.
pub(crate) fn part_of(merged: &MergedStencil, number: usize) -> Option<&FunctionStencil>
    ensures { option_map (λ part. part.now) result ≡ part_at merged.now number }
{
    if number == 0 {
        return Some(&merged.top);
    }
    match merged.entries.get(number - 1) {
        Some(Entry::Compiled(script)) => Some(script),
        Some(Entry::Lazy) => None,
        None => None,
    }
}

/// Appends the line over the code of the compiled script of this number.
pub(crate) fn append_header(
    out: &mut Vec<u8>,
    texts: &[Text],
    number: usize,
    script: &FunctionStencil,
) -> Result<(), AllocError>
    ensures { OnOk result (out.new.items ≡ out.old.items ++ header_line number (listed_script texts.now script.now)) }
{
    if number == 0 {
        append_top_line(out, script)?;
        return Ok(());
    }
    append_function_line(out, texts, number as u64, script)?;
    Ok(())
}

/// Appends the lines of the script of this number, and of no other.
pub(crate) fn append_numbered(
    out: &mut Vec<u8>,
    listing: Listing,
    merged: &MergedStencil,
    number: usize,
) -> Result<(), AllocError>
    requires { number < script_count merged.now }
    ensures { OnOk result (out.new.items ++ from_script listing merged.now (number + 1) ≡ out.old.items ++ from_script listing merged.now number) }
{
    if number == 0 {
        append_top(out, listing, merged)?;
        return Ok(());
    }
    append_function(
        out,
        listing,
        &merged.texts,
        number as u64,
        &merged.records[number - 1],
        &merged.entries[number - 1],
    )?;
    Ok(())
}
