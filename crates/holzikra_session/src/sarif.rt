//! Answers as a log in the form SARIF 2.1.0: one object for all files, of which each result is written when it is found.

use crate::refusal::Refused;
use crate::verdict::Spot;
use holzikra_json::Members;
use holzikra_refusals::{Code, Entry, all_entries, entry_of, message};
use percent_encoding::{AsciiSet, NON_ALPHANUMERIC, utf8_percent_encode};
use serde_json::Value;
use std::alloc::{AllocError, Global};

/// What stands in front of the results.
pub(crate) const HEAD: &str =
    "{\"$schema\":\"https://json.schemastore.org/sarif-2.1.0.json\",\"runs\":[{\"columnKind\":\"utf16CodeUnits\",\"results\":[\n";

/// The characters of a path that are written as `%20` in a reference: all but those that RFC 3986 leaves as they are, and `/`.
fn escaped_in_paths() -> AsciiSet {
    NON_ALPHANUMERIC
        .remove(b'-')
        .remove(b'.')
        .remove(b'_')
        .remove(b'~')
        .remove(b'/')
}

/// An object with this text as its one member.
fn only_text(alloc: Global, key: &str, text: &str) -> Result<Value, AllocError> {
    let mut members = Members::new(alloc);
    members.text(key, text)?;
    Ok(members.object())
}

/// An object with this object as its one member.
fn only_object(alloc: Global, key: &str, members: Members) -> Result<Value, AllocError> {
    let mut whole = Members::new(alloc);
    whole.put(key, members.object())?;
    Ok(whole.object())
}

/// A list with this value as its one item.
fn only_item(alloc: Global, item: Value) -> Result<Value, AllocError> {
    let mut items = Vec::new(alloc);
    items.push(item)?;
    Ok(Value::Array(items))
}

/// The file of a result.
fn artifact(alloc: Global, name: &str) -> Result<Value, AllocError> {
    let mut uri = String::new(alloc);
    utf8_percent_encode(name, escaped_in_paths()).append_to(&mut uri)?;
    only_text(alloc, "uri", uri.as_str())
}

/// The place of a result in its file.
fn region(alloc: Global, spot: Spot) -> Result<Value, AllocError> {
    let mut members = Members::new(alloc);
    members.number("startColumn", Some(spot.place.column as u64))?;
    members.number("startLine", Some(spot.place.line as u64))?;
    Ok(members.object())
}

/// The file of a result, and the place in it where it has one.
fn location(alloc: Global, name: &str, spot: Option<Spot>) -> Result<Value, AllocError> {
    let mut members = Members::new(alloc);
    members.put("artifactLocation", artifact(alloc, name)?)?;
    if let Some(spot) = spot {
        members.put("region", region(alloc, spot)?)?;
    }
    only_object(alloc, "physicalLocation", members)
}

/// The members that a result has and what is said of a file that cannot be read: how grave it is, where, and what is wrong.
fn said_members(
    alloc: Global,
    level: &str,
    location: Value,
    words: &str,
) -> Result<Members, AllocError> {
    let locations = only_item(alloc, location)?;
    let message = only_text(alloc, "text", words)?;
    let mut members = Members::new(alloc);
    members.text("level", level)?;
    members.put("locations", locations)?;
    members.put("message", message)?;
    Ok(members)
}

/// How grave a refusal is.
fn level_of(code: Code) -> &'static str {
    if code.is_unsupported() {
        "warning"
    } else {
        "error"
    }
}

/// The line of the result for a text that is refused.
fn result_line(alloc: Global, refused: Refused<'_>) -> Result<String, AllocError> {
    let words = message(alloc, refused.code, refused.text, refused.reason.offset())?;
    let location = location(alloc, refused.name, refused.reason.spot())?;
    let level = level_of(refused.code);
    let mut members = said_members(alloc, level, location, words.as_str())?;
    members.text("ruleId", entry_of(refused.code).code)?;
    members.line()
}

/// The result for a text that is refused, in a line. Behind the first one a comma stands in front of it.
pub(crate) fn refusal_result(
    alloc: Global,
    refused: Refused<'_>,
    first: bool,
) -> Result<String, AllocError> {
    let result = result_line(alloc, refused)?;
    if first {
        return Ok(result);
    }
    let mut line = String::from_str(alloc, ",")?;
    line.push_str(result.as_str())?;
    Ok(line)
}

/// What is said of a file that cannot be read.
pub(crate) fn fault_notification(
    alloc: Global,
    name: &str,
    why: &str,
) -> Result<Value, AllocError> {
    let location = location(alloc, name, None)?;
    let members = said_members(alloc, "error", location, why)?;
    Ok(members.object())
}

/// The run of the program, with what it could not read.
fn invocation(alloc: Global, faults: Vec<Value>) -> Result<Value, AllocError> {
    let mut members = Members::new(alloc);
    members.put("executionSuccessful", Value::Bool(faults.is_empty()))?;
    members.put("toolExecutionNotifications", Value::Array(faults))?;
    Ok(members.object())
}

/// What a code means.
fn rule(alloc: Global, entry: &Entry) -> Result<Value, AllocError> {
    let mut members = Members::new(alloc);
    members.put("fullDescription", only_text(alloc, "text", entry.rule)?)?;
    members.text("id", entry.code)?;
    members.put("shortDescription", only_text(alloc, "text", entry.title)?)?;
    Ok(members.object())
}

/// The meaning of all codes.
fn rules(alloc: Global) -> Result<Value, AllocError> {
    let mut rules = Vec::new(alloc);
    for entry in all_entries() {
        rules.push(rule(alloc, entry)?)?;
    }
    Ok(Value::Array(rules))
}

/// The program, with the meaning of all codes.
fn tool(alloc: Global) -> Result<Value, AllocError> {
    let rules = rules(alloc)?;
    let mut driver = Members::new(alloc);
    driver.text("name", "holzikra")?;
    driver.put("rules", rules)?;
    only_object(alloc, "driver", driver)
}

/// Appends the text of a value.
fn push_value(alloc: Global, text: &mut String, value: &Value) -> Result<(), AllocError> {
    let shown = value.to_string(alloc)?;
    text.push_str(shown.as_str())
}

/// Appends the one run of the program, with what it could not read.
fn push_runs(alloc: Global, text: &mut String, faults: Vec<Value>) -> Result<(), AllocError> {
    let run = invocation(alloc, faults)?;
    let runs = only_item(alloc, run)?;
    push_value(alloc, text, &runs)
}

/// Appends the program, with the meaning of all codes.
fn push_tool(alloc: Global, text: &mut String) -> Result<(), AllocError> {
    let tool = tool(alloc)?;
    push_value(alloc, text, &tool)
}

/// What stands behind the results: the run, with what is said of files that cannot be read, and the program, with the meaning of all codes.
pub(crate) fn tail(alloc: Global, faults: Vec<Value>) -> Result<String, AllocError> {
    let mut text = String::from_str(alloc, "],\"invocations\":")?;
    push_runs(alloc, &mut text, faults)?;
    text.push_str(",\"tool\":")?;
    push_tool(alloc, &mut text)?;
    text.push_str("}],\"version\":\"2.1.0\"}\n")?;
    Ok(text)
}
