//! Values of scripts, and the line of a file.

ghost use Rattle.std.specs.Prelude.{◌≡◌, ◌+◌, ◌<◌, List, map, option_map, slice_get, string_bytes, IfOk, OnOk};
ghost use Rattle.serde_json.specs.Data.{object};
ghost use Rattle.serde_json.specs.View.{view};
ghost use Rattle.stencil_data.specs.Named.{NamedMerged};
ghost use Rattle.stencil_data.specs.StandsFor.{MergedStandsFor, named_closed, named_record, text_at as text_of};
ghost use Rattle.bytecode_buf.specs.Command.{Listed};
ghost use Rattle.script_image.specs.Listed.{ShowsListed, listed_entry, listed_script, listed_stencil};
ghost use Rattle.holzikra_json.specs.Lines.{members_of};
ghost use Rattle.holzikra_objects.specs.Objects as objects;

use crate::instructions::{code_value, tries_value};
use crate::lists::{list, wholes};
use crate::notes::{
    InstructionNote, ScriptNotes, Users, end_of, instructions_of, put_script, put_spot, put_users,
    start_of, users_of,
};
use crate::scopes::scopes_value;
use crate::texts::{name_value, text_at, text_value};
use holzikra_json::Members;
use holzikra_names::Spot;
use script_image::Listing;
use serde_json::Value;
use std::alloc::{AllocError, Global};
use stencil_data::{
    ClosedName, Entry, Extent, FuncKind, FunctionStencil, LazyRecord, MergedStencil, Text,
};

/// How a function is written, in a word.
pub fn kind_name(kind: FuncKind) -> &'static str
    ensures { result.now ≡ objects.kind_name kind }
{
    match kind {
        FuncKind::Declared => "declared",
        FuncKind::Expression => "expression",
        FuncKind::Arrow => "arrow",
        FuncKind::Method => "method",
        FuncKind::Getter => "getter",
        FuncKind::Setter => "setter",
    }
}

/// A place of the source text.
fn place_value(alloc: Global, spot: Option<Spot>, offset: u32) -> Result<Value, AllocError>
    ensures { IfOk result (λ value. view value ≡ objects.place_data spot offset) }
{
    let mut members = Members::new(alloc);
    put_spot(&mut members, spot)?;
    members.number("offset", Some(u64::from(offset)))?;
    Ok(members.object())
}

/// What the script and each function have.
fn head_members(
    alloc: Global,
    texts: &[Text],
    notes: &[ScriptNotes],
    number: usize,
    kind: &str,
    name: Option<u32>,
    extent: Extent,
) -> Result<Members, AllocError>
    ensures { IfOk result (λ members. members_of members
        ≡ objects.head_members notes.now number kind.now (option_map (text_of texts.now) name) extent) }
{
    let mut members = Members::new(alloc);
    put_script(&mut members, notes, number)?;
    members.number("number", Some(number as u64))?;
    members.text("kind", kind)?;
    let name = name_value(alloc, texts, name)?;
    members.put("name", name)?;
    let start = place_value(alloc, start_of(notes, number), extent.start)?;
    members.put("start", start)?;
    let end = place_value(alloc, end_of(notes, number), extent.end)?;
    members.put("end", end)?;
    Ok(members)
}

/// The value of a name that is closed over.
fn closed_value(
    alloc: Global,
    texts: &[Text],
    users: &[Users],
    index: usize,
    name: ClosedName,
) -> Result<Value, AllocError>
    ensures { IfOk result (λ value. view value ≡ objects.closed_data (slice_get users.now index) (named_closed texts.now name)) }
{
    let mut members = Members::new(alloc);
    put_users(&mut members, alloc, users, index)?;
    members.number("scope", Some(u64::from(name.scope)))?;
    let text = text_value(alloc, text_at(texts, u64::from(name.atom)))?;
    members.put("name", text)?;
    Ok(members.object())
}

/// The list of the names that are closed over, with their users.
fn all_closed_value(
    alloc: Global,
    texts: &[Text],
    users: &[Users],
    names: &[ClosedName],
) -> Result<Value, AllocError>
    ensures { IfOk result (λ value. view value ≡ objects.list (objects.all_closed_data users.now 0 (map (named_closed texts.now) names.now))) }
{
    let mut values = Vec::new(alloc);
    for (index, name) in names.iter().enumerate() {
        values.push(closed_value(alloc, texts, users, index, *name)?)?;
    }
    Ok(list(values))
}

/// Puts in the functions that stand directly in a function or in the script, and its names that functions close over.
fn put_inside(
    members: &mut Members,
    alloc: Global,
    texts: &[Text],
    users: &[Users],
    inner: &[u32],
    closed: &[ClosedName],
) -> Result<(), AllocError>
    ensures { OnOk result (members_of members.new
        ≡ objects.inside_members users.now inner.now (map (named_closed texts.now) closed.now) (members_of members.old)) }
{
    let inner = wholes(alloc, inner)?;
    members.put("inner", inner)?;
    let closed = all_closed_value(alloc, texts, users, closed)?;
    members.put("closed", closed)?;
    Ok(())
}

/// What each function has.
fn function_members(
    alloc: Global,
    texts: &[Text],
    notes: &[ScriptNotes],
    number: usize,
    lazy: &LazyRecord,
) -> Result<Members, AllocError>
    ensures { IfOk result (λ members. members_of members ≡ objects.lazy_members notes.now number (named_record texts.now lazy.now)) }
{
    let mut members = head_members(
        alloc,
        texts,
        notes,
        number,
        kind_name(lazy.kind),
        lazy.name,
        lazy.extent,
    )?;
    let users = users_of(notes, number);
    put_inside(&mut members, alloc, texts, users, &lazy.inner, &lazy.closed)?;
    Ok(members)
}

/// Puts in the code of a compiled script.
fn put_code(
    members: &mut Members,
    alloc: Global,
    all: &[ScriptNotes],
    texts: &[Text],
    notes: &[InstructionNote],
    part: &FunctionStencil,
) -> Result<(), AllocError>
    ensures { OnOk result (members_of members.new
        ≡ objects.code_members all.now texts.now notes.now (listed_script texts.now part.now) (members_of members.old)) }
{
    let code = code_value(alloc, all, texts, notes, &part.code)?;
    members.put("code", code)?;
    let tries = tries_value(alloc, &part.notes)?;
    members.put("tries", tries)?;
    Ok(())
}

/// Puts in the scopes of a compiled script.
fn put_scopes(
    members: &mut Members,
    alloc: Global,
    texts: &[Text],
    part: &FunctionStencil,
) -> Result<(), AllocError>
    ensures { OnOk result (members_of members.new ≡ objects.scope_members (listed_script texts.now part.now) (members_of members.old)) }
{
    let scopes = scopes_value(alloc, texts, &part.scopes)?;
    members.put("scopes", scopes)?;
    Ok(())
}

/// Puts in what is compiled.
fn put_part(
    members: &mut Members,
    alloc: Global,
    listing: Listing,
    texts: &[Text],
    notes: &[ScriptNotes],
    number: usize,
    part: &FunctionStencil,
) -> Result<(), AllocError>
    ensures { OnOk result (members_of members.new
        ≡ objects.compiled_members (objects.shown listing texts.now notes.now) number (listed_script texts.now part.now) (members_of members.old)) }
{
    members.number("params", Some(u64::from(part.params)))?;
    match listing {
        Listing::Code => {
            let of_code = instructions_of(notes, number);
            put_code(members, alloc, notes, texts, of_code, part)?;
        }
        Listing::Scopes => put_scopes(members, alloc, texts, part)?,
    }
    Ok(())
}

/// Puts in what stands in the script itself, where something is said of it.
fn put_top(
    members: &mut Members,
    alloc: Global,
    texts: &[Text],
    notes: &[ScriptNotes],
) -> Result<(), AllocError>
    ensures { OnOk result (members_of members.new ≡ objects.top_members texts.now (slice_get notes.now 0) (members_of members.old)) }
{
    match notes.get(0) {
        None => (),
        Some(note) => {
            put_inside(
                members,
                alloc,
                texts,
                &note.users,
                &note.inner,
                &note.closed,
            )?;
        }
    }
    Ok(())
}

/// The value of the script itself.
fn top_value(
    alloc: Global,
    listing: Listing,
    texts: &[Text],
    notes: &[ScriptNotes],
    top: &FunctionStencil,
) -> Result<Value, AllocError>
    ensures { IfOk result (λ value. view value ≡ objects.top_data (objects.shown listing texts.now notes.now) (listed_script texts.now top.now)) }
{
    let mut members = head_members(alloc, texts, notes, 0, "script", top.name, top.extent)?;
    put_top(&mut members, alloc, texts, notes)?;
    put_part(&mut members, alloc, listing, texts, notes, 0, top)?;
    Ok(members.object())
}

/// The value of the function of this number.
fn function_value(
    alloc: Global,
    listing: Listing,
    texts: &[Text],
    notes: &[ScriptNotes],
    number: usize,
    lazy: &LazyRecord,
    entry: &Entry,
) -> Result<Value, AllocError>
    ensures { IfOk result (λ value. view value ≡ objects.function_data
        (objects.shown listing texts.now notes.now) number (named_record texts.now lazy.now) (listed_entry texts.now entry.now)) }
{
    let mut members = function_members(alloc, texts, notes, number, lazy)?;
    match entry {
        Entry::Lazy => Ok(members.object()),
        Entry::Compiled(part) => {
            put_part(&mut members, alloc, listing, texts, notes, number, part)?;
            Ok(members.object())
        }
    }
}

/// The values of the script and of its functions, in order of number.
fn script_values(
    alloc: Global,
    listing: Listing,
    merged: &MergedStencil,
    notes: &[ScriptNotes],
) -> Result<Vec<Value>, AllocError>
    ensures { IfOk result (λ values. map view values.items
        ≡ objects.scripts_data (objects.shown listing merged.now.texts notes.now) (listed_stencil merged.now)) }
{
    let mut values = Vec::new(alloc);
    values.push(top_value(alloc, listing, &merged.texts, notes, &merged.top)?)?;
    for index in 0..merged.records.len().min(merged.entries.len()) {
        values.push(function_value(
            alloc,
            listing,
            &merged.texts,
            notes,
            index + 1,
            &merged.records[index],
            &merged.entries[index],
        )?)?;
    }
    Ok(values)
}

/// The members of the object of a file.
fn file_members(
    alloc: Global,
    listing: Listing,
    name: &str,
    bytes: usize,
    merged: &MergedStencil,
    notes: &[ScriptNotes],
) -> Result<Members, AllocError>
    ensures { IfOk result (λ members. object (members_of members)
        ≡ objects.script_data (objects.shown listing merged.now.texts notes.now) name.now bytes (listed_stencil merged.now)) }
{
    let mut members = Members::of_file(alloc, name, "script")?;
    members.number("bytes", Some(bytes as u64))?;
    members.number("functions", Some(merged.records.len() as u64))?;
    let scripts = script_values(alloc, listing, merged, notes)?;
    members.put("scripts", list(scripts))?;
    Ok(members)
}

/// The line of a file of this name and so many bytes, of which the script is this: with the code of each part that is compiled, or with its
/// scopes. Notes are of the script itself and of each function, in order of number; what they say stands beside the rest.
///
/// It takes time and memory in proportion to the stencil and the notes, and is an error only where memory runs out.
pub fn script_line(
    alloc: Global,
    listing: Listing,
    name: &str,
    bytes: usize,
    merged: &MergedStencil,
    notes: &[ScriptNotes],
) -> Result<String, AllocError>
    ensures { IfOk result (λ line. (named : NamedMerged (List Listed)) → MergedStandsFor ShowsListed merged.now named
        → objects.IsLineOf (objects.script_data (objects.shown listing merged.now.texts notes.now) name.now bytes named) (string_bytes line)) }
{
    let members = file_members(alloc, listing, name, bytes, merged, notes)?;
    let line = members.line()?;
    Ok(line)
}
