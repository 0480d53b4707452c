//! What is said of a script beside its stencil: lines and columns, bindings, depths.

ghost use Rattle.std.specs.Prelude.{◌≡◌, OnOk, IfOk, slice_get};
ghost use Rattle.serde_json.specs.View.{view};
ghost use Rattle.holzikra_json.specs.Lines.{members_of};
ghost use Rattle.holzikra_objects.specs.Objects as objects;

use crate::lists::wholes;
use crate::texts::{text_at, text_value};
use holzikra_json::Members;
use holzikra_names::Spot;
use serde_json::Value;
use std::alloc::{AllocError, Global};
use stencil_data::{ClosedName, Text};

/// The binding that hops and a slot mean.
#[derive(Clone, Copy)]
pub struct BindingNote {
    /// The function that it is of; 0 is the script.
    pub function: u32,
    /// The number of its scope there.
    pub scope: u32,
    /// Its name.
    pub atom: u32,
}

/// What is said of the instruction at an offset.
#[derive(Clone, Copy)]
pub struct InstructionNote {
    /// Whether a path of the code may lead there.
    pub reached: bool,
    pub binding: Option<BindingNote>,
}

/// The functions that use a name which is closed over.
#[derive(Drop)]
pub struct Users {
    pub numbers: Vec<u32>,
}

/// What is said of the script itself, or of a function.
#[derive(Drop)]
pub struct ScriptNotes {
    /// The number of the function around it; none of the script.
    pub around: Option<u64>,
    /// The bytes of its code, where it is compiled.
    pub bytes: Option<u64>,
    /// How many values its stack has at most, where its code is sound.
    pub depth: Option<u64>,
    /// Where it starts and ends, where the source text is at hand.
    pub start: Option<Spot>,
    pub end: Option<Spot>,
    /// Of the script itself, the functions directly in it and its names that functions close over. Of a function its record has them.
    pub inner: Vec<u32>,
    pub closed: Vec<ClosedName>,
    /// The users of each name that is closed over.
    pub users: Vec<Users>,
    /// What is said of the instruction at each offset.
    pub instructions: Vec<InstructionNote>,
}

/// Puts in a line and a column.
pub(crate) fn put_spot(members: &mut Members, spot: Option<Spot>) -> Result<(), AllocError>
    ensures { OnOk result (members_of members.new ≡ objects.spot_members spot (members_of members.old)) }
{
    match spot {
        None => (),
        Some(spot) => {
            members.number("column", Some(spot.column as u64))?;
            members.number("line", Some(spot.line as u64))?;
        }
    }
    Ok(())
}

/// Puts in the line of a place alone.
pub(crate) fn put_line(members: &mut Members, spot: Option<Spot>) -> Result<(), AllocError>
    ensures { OnOk result (members_of members.new ≡ objects.line_members spot (members_of members.old)) }
{
    match spot {
        None => (),
        Some(spot) => members.number("line", Some(spot.line as u64))?,
    }
    Ok(())
}

/// Where the script or function of this number starts.
pub(crate) fn start_of(notes: &[ScriptNotes], number: usize) -> Option<Spot>
    ensures { result ≡ objects.start_of (slice_get notes.now number) }
{
    match notes.get(number) {
        None => None,
        Some(note) => note.start,
    }
}

/// Where it ends.
pub(crate) fn end_of(notes: &[ScriptNotes], number: usize) -> Option<Spot>
    ensures { result ≡ objects.end_of (slice_get notes.now number) }
{
    match notes.get(number) {
        None => None,
        Some(note) => note.end,
    }
}

/// The users of its names that are closed over.
pub(crate) fn users_of(notes: &[ScriptNotes], number: usize) -> &[Users]
    ensures { result.now ≡ objects.users_of (slice_get notes.now number) }
{
    match notes.get(number) {
        None => &[],
        Some(note) => note.users.as_slice(),
    }
}

/// What is said of its instructions.
pub(crate) fn instructions_of(notes: &[ScriptNotes], number: usize) -> &[InstructionNote]
    ensures { result.now ≡ objects.instructions_of (slice_get notes.now number) }
{
    match notes.get(number) {
        None => &[],
        Some(note) => note.instructions.as_slice(),
    }
}

/// Puts in what is said of the script or function of this number itself.
pub(crate) fn put_script(
    members: &mut Members,
    notes: &[ScriptNotes],
    number: usize,
) -> Result<(), AllocError>
    ensures { OnOk result (members_of members.new ≡ objects.script_members (slice_get notes.now number) (members_of members.old)) }
{
    match notes.get(number) {
        None => (),
        Some(note) => {
            members.number("around", note.around)?;
            members.number("bytes", note.bytes)?;
            members.number("depth", note.depth)?;
        }
    }
    Ok(())
}

/// Puts in the users of a name that is closed over.
pub(crate) fn put_users(
    members: &mut Members,
    alloc: Global,
    users: &[Users],
    index: usize,
) -> Result<(), AllocError>
    ensures { OnOk result (members_of members.new ≡ objects.users_members (slice_get users.now index) (members_of members.old)) }
{
    match users.get(index) {
        None => (),
        Some(note) => {
            let numbers = wholes(alloc, &note.numbers)?;
            members.put("used_by", numbers)?;
        }
    }
    Ok(())
}

/// The value of a binding that an instruction means.
fn binding_value(alloc: Global, texts: &[Text], binding: BindingNote) -> Result<Value, AllocError>
    ensures { IfOk result (λ value. view value ≡ objects.meant_data texts.now binding) }
{
    let mut members = Members::new(alloc);
    members.number("function", Some(u64::from(binding.function)))?;
    let name = text_value(alloc, text_at(texts, u64::from(binding.atom)))?;
    members.put("name", name)?;
    members.number("scope", Some(u64::from(binding.scope)))?;
    Ok(members.object())
}

/// Puts in the binding that an instruction means, where it is known.
fn put_binding(
    members: &mut Members,
    alloc: Global,
    texts: &[Text],
    binding: Option<BindingNote>,
) -> Result<(), AllocError>
    ensures { OnOk result (members_of members.new ≡ objects.meant_members texts.now binding (members_of members.old)) }
{
    match binding {
        None => (),
        Some(binding) => {
            let value = binding_value(alloc, texts, binding)?;
            members.put("binding", value)?;
        }
    }
    Ok(())
}

/// Puts in that no path leads to an instruction, where that is so.
fn put_reached(members: &mut Members, reached: bool) -> Result<(), AllocError>
    ensures { OnOk result (members_of members.new ≡ objects.reached_members reached (members_of members.old)) }
{
    if !reached {
        members.put("reached", Value::Bool(false))?;
    }
    Ok(())
}

/// Puts in what is said of the instruction at an offset.
pub(crate) fn put_instruction(
    members: &mut Members,
    alloc: Global,
    texts: &[Text],
    notes: &[InstructionNote],
    at: usize,
) -> Result<(), AllocError>
    ensures { OnOk result (members_of members.new ≡ objects.note_members texts.now (slice_get notes.now at) (members_of members.old)) }
{
    match notes.get(at) {
        None => (),
        Some(note) => {
            put_binding(members, alloc, texts, note.binding)?;
            put_reached(members, note.reached)?;
        }
    }
    Ok(())
}
