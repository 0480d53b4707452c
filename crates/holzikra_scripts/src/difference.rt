//! The differences of two scripts' code.

use crate::difference_json::difference_line;
use crate::source::KnownText;
use holzikra_diff::{Side, append_difference, difference_of};
use holzikra_places::push_shown_text;
use holzikra_words::DiffFormat;
use std::alloc::{AllocError, Global};
use stencil_data::MergedStencil;

/// A script that is compared: the name of its file, its text where that is known, as it is not of an image, and its stencil.
#[derive(Clone, Copy)]
pub struct Compared<'a> {
    pub name: &'a str,
    pub text: Option<&'a [u8]>,
    pub stencil: &'a MergedStencil,
}

/// What is written of two scripts that are compared.
#[derive(Drop)]
pub struct Comparison {
    pub lines: Vec<u8>,
    /// Whether their code differs.
    pub differs: bool,
}

/// The source text of a script that is compared.
fn source_of<'a>(alloc: Global, text: Option<&'a [u8]>) -> Result<KnownText<'a>, AllocError> {
    match text {
        None => Ok(KnownText { text: None }),
        Some(text) => KnownText::of(alloc, text),
    }
}

/// The name of a file as it is written: for a person so that it stays in its line.
fn written_name(alloc: Global, format: DiffFormat, name: &str) -> Result<String, AllocError> {
    let mut written = String::new(alloc);
    match format {
        DiffFormat::Human => push_shown_text(&mut written, name)?,
        DiffFormat::Json => written.push_str(name)?,
    }
    Ok(written)
}

/// The differences of two scripts, function by function. For a person nothing is written where their code does not differ.
pub fn compare_scripts(
    alloc: Global,
    format: DiffFormat,
    old: Compared<'_>,
    new: Compared<'_>,
) -> Result<Comparison, AllocError> {
    let difference = difference_of(alloc, old.stencil, new.stencil)?;
    let differs = difference.counts().differs();
    let old_source = source_of(alloc, old.text)?;
    let new_source = source_of(alloc, new.text)?;
    let old_name = written_name(alloc, format, old.name)?;
    let new_name = written_name(alloc, format, new.name)?;
    let old_side = Side {
        name: old_name.as_str(),
        merged: old.stencil,
        source: &old_source,
    };
    let new_side = Side {
        name: new_name.as_str(),
        merged: new.stencil,
        source: &new_source,
    };
    let mut lines = Vec::new(alloc);
    match format {
        DiffFormat::Human => {
            append_difference(alloc, &mut lines, &old_side, &new_side, &difference)?;
        }
        DiffFormat::Json => {
            let line = difference_line(alloc, &old_side, &new_side, &difference)?;
            lines = line.into_bytes();
        }
    }
    Ok(Comparison { lines, differs })
}
