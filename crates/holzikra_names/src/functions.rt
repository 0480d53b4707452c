//! Functions of a script.

use crate::names::{append_name, text_at};
use script_image::append_decimal;
use std::alloc::{AllocError, Global};
use stencil_data::{FuncKind, MergedStencil};

/// How a function is written, in words.
pub fn kind_words(kind: FuncKind) -> &'static str {
    match kind {
        FuncKind::Declared => "declared",
        FuncKind::Expression => "function expression",
        FuncKind::Arrow => "arrow function",
        FuncKind::Method => "method",
        FuncKind::Getter => "getter",
        FuncKind::Setter => "setter",
    }
}

/// Appends `the script`, or `function N` of another number.
pub fn append_owner(out: &mut Vec<u8>, number: u32) -> Result<(), AllocError> {
    if number == 0 {
        out.extend_from_slice(b"the script")?;
        return Ok(());
    }
    out.extend_from_slice(b"function ")?;
    append_decimal(out, u64::from(number))
}

/// Appends the name of a function, or its kind in parentheses where it has none.
pub fn append_function(
    alloc: Global,
    out: &mut Vec<u8>,
    merged: &MergedStencil,
    kind: FuncKind,
    name: Option<u32>,
) -> Result<(), AllocError> {
    match name {
        Some(atom) => append_name(alloc, out, text_at(&merged.texts, atom)),
        None => {
            out.extend_from_slice(b"(")?;
            out.extend_from_slice(kind_words(kind).as_bytes())?;
            out.extend_from_slice(b")")?;
            Ok(())
        }
    }
}

/// Appends how the script or a function is called: `script`, or the number of the function and its name.
pub fn append_script(
    alloc: Global,
    out: &mut Vec<u8>,
    merged: &MergedStencil,
    number: u32,
) -> Result<(), AllocError> {
    if number == 0 {
        out.extend_from_slice(b"script")?;
        return Ok(());
    }
    out.extend_from_slice(b"function ")?;
    append_decimal(out, u64::from(number))?;
    match merged.records.get(number as usize - 1) {
        None => Ok(()),
        Some(lazy) => {
            out.extend_from_slice(b" ")?;
            append_function(alloc, out, merged, lazy.kind, lazy.name)
        }
    }
}

/// For each function the number of the one in which it stands directly; the script is function 0, and stands in itself.
pub fn around_functions(alloc: Global, merged: &MergedStencil) -> Result<Vec<u32>, AllocError> {
    let mut around = vec![in alloc; 0u32; merged.records.len().saturating_add(1)]?;
    let mut number = 0u32;
    for lazy in &merged.records {
        number = number.saturating_add(1);
        enter(&mut around, number, &lazy.inner);
    }
    Ok(around)
}

fn enter(around: &mut [u32], number: u32, inner: &[u32]) {
    for function in inner {
        if (*function as usize) < around.len() {
            around[*function as usize] = number;
        }
    }
}
