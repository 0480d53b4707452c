//! A file of a page.

use crate::closures::append_closures;
use crate::escape::append_text;
use crate::frame::{append_all, append_numbers};
use crate::functions::append_functions;
use crate::lines::{append_listing, append_source};
use holzikra_names::Source;
use holzikra_stats::counts_of;
use script_image::append_decimal;
use std::alloc::{AllocError, Global};
use stencil_data::MergedStencil;

/// The bytes of source text above which neither it nor the listing of its code is shown.
const MOST_SHOWN: usize = 2_000_000;

/// A script, and what is shown of it.
#[derive(Drop)]
pub struct Shown<'a, S> {
    /// The name of the file.
    pub name: &'a str,
    pub text: &'a [u8],
    pub merged: &'a MergedStencil,
    pub source: &'a S,
    /// What is shown of the script itself, and of each function in order of number; where there is nothing all is.
    pub functions: &'a [holzikra_finding::Shown],
    /// The listing of the code: of each script a line that begins with `script`, and its lines.
    pub listing: &'a [u8],
    /// The drawing of the scopes.
    pub scopes: &'a [u8],
}

/// A text that is refused, and what is said of it.
#[derive(Clone, Copy)]
pub struct Refusal<'a> {
    /// The name of the file.
    pub name: &'a str,
    pub text: &'a [u8],
    /// What `check` says of it.
    pub words: &'a [u8],
    /// The clauses of ECMA-262, none for a limit of this program.
    pub clauses: &'a str,
    /// The line of the place, from 1, where it has one.
    pub line: Option<usize>,
}

/// Appends the start of a file: its name, which opens and closes it.
fn append_head(
    out: &mut Vec<u8>,
    number: usize,
    class: &str,
    name: &str,
) -> Result<(), AllocError> {
    append_all(out, &["<details class=\"", class])?;
    append_numbers(out, &[("\" id=\"f", number)])?;
    append_all(out, &["\" open><summary>"])?;
    append_text(out, name.as_bytes())?;
    append_all(out, &["</summary>\n"])
}

fn append_count(out: &mut Vec<u8>, word: &str, count: u128) -> Result<(), AllocError> {
    append_all(out, &["<tr><th>", word, "</th><td>"])?;
    append_decimal(out, u64::try_from(count).unwrap_or(u64::MAX))?;
    append_all(out, &["</td></tr>\n"])
}

/// Appends the counts of a script.
fn append_counts(
    alloc: Global,
    out: &mut Vec<u8>,
    merged: &MergedStencil,
    bytes: usize,
) -> Result<(), AllocError> {
    let counts = counts_of(alloc, merged)?;
    append_all(
        out,
        &["<div class=\"tab\" data-tab=\"counts\"><h2>Counts</h2>\n<table class=\"counts\">\n"],
    )?;
    append_count(out, "functions", counts.functions as u128)?;
    append_count(out, "closed names", counts.closed)?;
    append_count(out, "instructions", counts.instructions)?;
    append_count(out, "code bytes", counts.bytes)?;
    append_count(out, "nested", u128::from(counts.nested))?;
    append_count(out, "source bytes", bytes as u128)?;
    append_all(out, &["</table></div>\n"])
}

/// Appends the panes that show the source and the listing of a script.
fn append_panes<S: Source>(
    alloc: Global,
    out: &mut Vec<u8>,
    number: usize,
    shown: &Shown<'_, S>,
) -> Result<(), AllocError> {
    append_all(out, &["<div class=\"pane\">\n"])?;
    append_source(alloc, out, number, shown.text)?;
    append_all(
        out,
        &["</div>\n<div class=\"pane\">\n<div class=\"tab\" data-tab=\"code\"><h2>Code</h2>\n"],
    )?;
    append_listing(out, number, shown.listing)?;
    append_all(
        out,
        &["</div>\n<div class=\"tab\" data-tab=\"scopes\"><h2>Scopes</h2>\n<pre>"],
    )?;
    append_text(out, shown.scopes)?;
    append_all(
        out,
        &["</pre></div>\n<div class=\"tab\" data-tab=\"closures\"><h2>Closures</h2>\n"],
    )?;
    append_closures(alloc, out, number, shown.merged, shown.functions)?;
    append_all(out, &["</div>\n"])
}

/// Appends a script as the file of this number of a page. Of a file of more than two million bytes the functions and the counts alone
/// are shown; counts stand there where all functions do.
///
/// It takes time in proportion to what is appended, and is an error only where memory runs out.
pub fn append_script<S: Source>(
    alloc: Global,
    out: &mut Vec<u8>,
    number: usize,
    shown: &Shown<'_, S>,
) -> Result<(), AllocError> {
    append_head(out, number, "file", shown.name)?;
    append_all(out, &["<div class=\"panes\">\n<div class=\"pane\">\n"])?;
    append_functions(
        alloc,
        out,
        number,
        shown.merged,
        shown.source,
        shown.functions,
    )?;
    append_all(out, &["</div>\n"])?;
    if shown.text.len() <= MOST_SHOWN {
        append_panes(alloc, out, number, shown)?;
    } else {
        append_all(out, &["<div class=\"pane\">\n"])?;
    }
    if shown.functions.is_empty() {
        append_counts(alloc, out, shown.merged, shown.text.len())?;
    }
    append_all(out, &["</div>\n</div>\n</details>\n"])
}

/// Appends the clauses of a refusal, and a link to the line of its place.
fn append_clauses(
    out: &mut Vec<u8>,
    number: usize,
    clauses: &str,
    line: Option<usize>,
) -> Result<(), AllocError> {
    append_all(out, &["<p>"])?;
    if !clauses.is_empty() {
        append_all(out, &["ECMA-262, 12th edition: "])?;
        append_text(out, clauses.as_bytes())?;
    }
    if let Some(line) = line {
        append_numbers(
            out,
            &[
                (" <a class=\"place\" href=\"#f", number),
                ("l", line),
                ("\">line ", line),
            ],
        )?;
        append_all(out, &["</a>"])?;
    }
    append_all(out, &["</p>\n"])
}

/// Appends a file that is refused as the file of this number of a page: what is said of it, and its source where it has a place and no
/// more than two million bytes.
pub fn append_refused(
    alloc: Global,
    out: &mut Vec<u8>,
    number: usize,
    refusal: Refusal<'_>,
) -> Result<(), AllocError> {
    append_head(out, number, "refused", refusal.name)?;
    append_all(out, &["<pre>"])?;
    append_text(out, refusal.words)?;
    append_all(out, &["</pre>\n"])?;
    let has_source = refusal.line.is_some() && refusal.text.len() <= MOST_SHOWN;
    let line = if has_source { refusal.line } else { None };
    append_clauses(out, number, refusal.clauses, line)?;
    if has_source {
        append_all(out, &["<div class=\"pane\">\n"])?;
        append_source(alloc, out, number, refusal.text)?;
        append_all(out, &["</div>\n"])?;
    }
    append_all(out, &["</details>\n"])
}
