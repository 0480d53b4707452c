//! Answers as JSON, an object in a line each.

ghost use Rattle.std.specs.Prelude.{◌≡◌, codes, length, IfOk, OnOk, string_bytes};
ghost use Rattle.serde_json.specs.Data.{put as with_member, string};
ghost use Rattle.serde_json.specs.View.{view};
ghost use Rattle.holzikra_json.specs.Lines.{members_of, whole_or_null};
ghost use Rattle.holzikra_session.specs.Answers.{IsCheckedLine, IsImageLine, IsRefusalLine, IsUnreadableLine, checked_members, image_members, place_members, refusal_data, refused_members, rule_of, word_of};

use crate::note::other_place;
use crate::refusal::Refused;
use crate::verdict::{Reason, Spot, Verified};
use holzikra_json::Members;
use holzikra_refusals::{entry_of, message, name_at};
use serde_json::Value;
use std::alloc::{AllocError, Global};

/// The members of a script without errors, of so many bytes and functions.
fn checked_members(
    alloc: Global,
    name: &str,
    bytes: usize,
    functions: usize,
) -> Result<Members, AllocError>
    ensures { IfOk result (λ members. members_of members ≡ checked_members name.now bytes functions) }
{
    let mut members = Members::of_file(alloc, name, "ok")?;
    members.number("bytes", Some(bytes as u64))?;
    members.number("functions", Some(functions as u64))?;
    Ok(members)
}

/// A script without errors.
pub(crate) fn script_line(
    alloc: Global,
    name: &str,
    bytes: &[u8],
    functions: usize,
) -> Result<String, AllocError>
    ensures { IfOk result (λ line. IsCheckedLine name.now (length bytes.now) functions (string_bytes line)) }
{
    let members = checked_members(alloc, name, bytes.len(), functions)?;
    let line = members.line()?;
    Ok(line)
}

/// The clauses of ECMA-262, each a text.
fn clauses(alloc: Global, clauses: &str) -> Result<Value, AllocError> {
    let mut list = Vec::new(alloc);
    if !clauses.is_empty() {
        for clause in clauses.split(", ") {
            list.push(Value::try_from_str(alloc, clause)?)?;
        }
    }
    Ok(Value::Array(list))
}

/// The number of the rule of an early error.
fn rule(reason: Reason) -> Option<u64>
    ensures { result ≡ rule_of reason }
{
    match reason {
        Reason::TooLong => None,
        Reason::BadUtf8(_) => None,
        Reason::Unexpected(_) => None,
        Reason::TooDeep(_) => None,
        Reason::Early(_, rule) => Some(u64::from(rule)),
    }
}

/// Puts in the place of a refusal.
fn put_place(members: &mut Members, spot: Option<Spot>) -> Result<(), AllocError>
    ensures { OnOk result (members_of members.new ≡ place_members spot (members_of members.old)) }
{
    match spot {
        None => {
            members.number("column", None)?;
            members.number("line", None)?;
            members.number("offset", None)?;
        }
        Some(spot) => {
            members.number("column", Some(spot.place.column as u64))?;
            members.number("line", Some(spot.place.line as u64))?;
            members.number("offset", Some(spot.offset as u64))?;
        }
    }
    Ok(())
}

/// Puts in the word of a reason and the number of its rule.
fn put_reason(members: &mut Members, reason: Reason) -> Result<(), AllocError>
    ensures { OnOk result (members_of members.new ≡ with_member (codes "rule") (whole_or_null (rule_of reason))
        (with_member (codes "reason") (string (word_of reason)) (members_of members.old))) }
{
    members.text("reason", reason.word())?;
    members.number("rule", rule(reason))?;
    Ok(())
}

/// The name at the place of a refusal, or null.
fn name_value(alloc: Global, refused: Refused<'_>) -> Result<Value, AllocError> {
    let Some(spot) = refused.reason.spot() else {
        return Ok(Value::Null);
    };
    match name_at(refused.text, spot.offset) {
        None => Ok(Value::Null),
        Some(name) => Value::try_from_str(alloc, name),
    }
}

/// What is said of other places.
fn notes(alloc: Global, refused: Refused<'_>) -> Result<Value, AllocError> {
    let mut list = Vec::new(alloc);
    if let Some(other) = other_place(alloc, refused)? {
        let mut members = Members::new(alloc);
        members.number("column", Some(other.spot.place.column as u64))?;
        members.number("line", Some(other.spot.place.line as u64))?;
        members.text("message", other.words)?;
        members.number("offset", Some(other.spot.offset as u64))?;
        list.push(members.object())?;
    }
    Ok(Value::Array(list))
}

/// What is told of a refusal beside its reason.
#[derive(Drop)]
pub(crate) struct Told {
    name: Value,
    clauses: Value,
    code: &'static str,
    message: String,
    notes: Value,
    supported: bool,
}

/// What is told of the refusal of a text.
fn told_of(alloc: Global, refused: Refused<'_>) -> Result<Told, AllocError> {
    let entry = entry_of(refused.code);
    let offset = refused.reason.offset();
    Ok(Told {
        name: name_value(alloc, refused)?,
        clauses: clauses(alloc, entry.clauses)?,
        code: entry.code,
        message: message(alloc, refused.code, refused.text, offset)?,
        notes: notes(alloc, refused)?,
        supported: !refused.code.is_unsupported(),
    })
}

/// The value of a refusal.
fn refusal_value(alloc: Global, reason: Reason, told: Told) -> Result<Value, AllocError>
    ensures { IfOk result (λ value. view value ≡ refusal_data reason told) }
{
    let Told {
        name,
        clauses,
        code,
        message,
        notes,
        supported,
    } = told;
    let mut members = Members::new(alloc);
    put_place(&mut members, reason.spot())?;
    members.put("name", name)?;
    members.put("clauses", clauses)?;
    members.text("code", code)?;
    members.text("message", message.as_str())?;
    members.put("notes", notes)?;
    put_reason(&mut members, reason)?;
    members.put("supported", Value::Bool(supported))?;
    Ok(members.object())
}

/// The members of a file of so many bytes that is refused, with the value of its refusal.
fn refused_members(
    alloc: Global,
    name: &str,
    bytes: usize,
    refusal: Value,
) -> Result<Members, AllocError>
    ensures { IfOk result (λ members. members_of members ≡ refused_members name.now bytes (view refusal)) }
{
    let mut members = Members::of_file(alloc, name, "refused")?;
    members.number("bytes", Some(bytes as u64))?;
    members.number("functions", None)?;
    members.put("refusal", refusal)?;
    Ok(members)
}

/// A text that is refused.
pub(crate) fn refusal_line(alloc: Global, refused: Refused<'_>) -> Result<String, AllocError>
    ensures { IfOk result (λ line. IsRefusalLine refused.entry.name.now (length refused.entry.text.now) refused.entry.reason (string_bytes line)) }
{
    let told = told_of(alloc, refused)?;
    let why = refusal_value(alloc, refused.reason, told)?;
    let members = refused_members(alloc, refused.name, refused.text.len(), why)?;
    let line = members.line()?;
    Ok(line)
}

/// The members of a file, by what its bytes are that were taken as an image.
fn image_members(alloc: Global, name: &str, found: Verified) -> Result<Members, AllocError>
    ensures { IfOk result (λ members. members_of members ≡ image_members name.now found) }
{
    match found {
        Verified::Sound { functions, depth } => {
            let mut members = Members::of_file(alloc, name, "image")?;
            members.number("depth", Some(depth))?;
            members.number("functions", Some(functions as u64))?;
            members.put("sound", Value::Bool(true))?;
            Ok(members)
        }
        Verified::Unsound { script } => {
            let mut members = Members::of_file(alloc, name, "image")?;
            members.put("sound", Value::Bool(false))?;
            members.number("script", Some(script as u64))?;
            Ok(members)
        }
        Verified::NoImage => {
            let members = Members::of_file(alloc, name, "no_image")?;
            Ok(members)
        }
    }
}

/// What bytes are that were taken as an image.
pub(crate) fn image_line(alloc: Global, name: &str, found: Verified) -> Result<String, AllocError>
    ensures { IfOk result (λ line. IsImageLine name.now found (string_bytes line)) }
{
    let members = image_members(alloc, name, found)?;
    let line = members.line()?;
    Ok(line)
}

/// A file that cannot be read.
pub(crate) fn unreadable_line(alloc: Global, name: &str, fault: &str) -> Result<String, AllocError>
    ensures { IfOk result (λ line. IsUnreadableLine name.now fault.now (string_bytes line)) }
{
    let mut members = Members::of_file(alloc, name, "unreadable")?;
    members.text("fault", fault)?;
    let line = members.line()?;
    Ok(line)
}
