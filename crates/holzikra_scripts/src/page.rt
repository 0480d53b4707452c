//! A script on a page for a browser.

use crate::choice::Choice;
use crate::scopes::shown_for;
use crate::sections::chosen_sections;
use crate::source::SourceText;
use holzikra_depths::depths_of;
use holzikra_listing::{Options, noted_listing};
use holzikra_page::{Shown, append_script};
use holzikra_places::push_shown_text;
use holzikra_scopes::scope_tree;
use std::alloc::{AllocError, Global};
use stencil_data::MergedStencil;

/// The lines of the listing with notes, of each script as much as is shown.
fn listing_of(
    alloc: Global,
    stencil: &MergedStencil,
    source: &SourceText<'_>,
    shown: &[holzikra_finding::Shown],
) -> Result<Vec<u8>, AllocError> {
    let depths = depths_of(alloc, stencil)?;
    let options = Options {
        source_lines: false,
        depths: &depths,
    };
    let listing = noted_listing(alloc, stencil, source, options)?;
    if shown.is_empty() {
        return Ok(listing.text);
    }
    let sections = chosen_sections(alloc, &listing.text, shown)?;
    Ok(sections.text)
}

/// Appends a script as the file of this number of a page, with its source, the listing of its code with notes, its scopes and closures; of
/// the functions that are not chosen the first line where they are around others, else nothing. The text is the one that was compiled.
pub fn append_page_script(
    alloc: Global,
    page: &mut Vec<u8>,
    number: usize,
    name: &str,
    text: &[u8],
    stencil: &MergedStencil,
    chosen: &Choice,
) -> Result<(), AllocError> {
    let functions = shown_for(alloc, stencil, chosen)?;
    let source = SourceText::of(alloc, text)?;
    let listing = listing_of(alloc, stencil, &source, &functions)?;
    let mut scopes = Vec::new(alloc);
    scope_tree(alloc, stencil, &source, &functions, &mut scopes)?;
    let mut shown_name = String::new(alloc);
    push_shown_text(&mut shown_name, name)?;
    let shown = Shown {
        name: shown_name.as_str(),
        text,
        merged: stencil,
        source: &source,
        functions: &functions,
        listing: &listing,
        scopes: &scopes,
    };
    append_script(alloc, page, number, &shown)
}
