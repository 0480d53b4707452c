//! The drawing of who closes over what, and the table of it.

use crate::escape::append_text;
use crate::frame::{append_all, append_numbers};
use crate::functions::levels_of;
use holzikra_finding::Shown;
use holzikra_names::{
    append_chars, append_name, append_owner, append_script, around_functions, text_at,
};
use holzikra_scopes::{Edge, Uses, edges_of, is_hidden};
use std::alloc::{AllocError, Global};
use stencil_data::MergedStencil;
use unicode_width::UnicodeWidthChar;

/// The units of the drawing from one row to the next, the height of a box, and how far a box stands to the right of the one around it.
const ROW: usize = 28;

const HEIGHT: usize = 20;

const INDENT: usize = 18;

/// The units that a column of text takes, and the units beside it in a box.
const COLUMN: usize = 7;

const BESIDE: usize = 14;

/// How many characters of a name, and of the names that a function closes over, are drawn.
const MOST_OF_NAME: usize = 40;

const MOST_OF_NAMES: usize = 120;

/// How far the arrows reach to the right of the boxes.
const REACH: usize = 90;

/// Where a function is drawn, or how it is called.
#[derive(Drop)]
struct Node {
    /// The function, of which 0 is the script.
    number: u32,
    /// The left and the upper side.
    left: usize,
    top: usize,
    width: usize,
    label: Vec<u8>,
}

impl Node {
    /// The right side of the box.
    fn right(&self) -> usize {
        self.left.saturating_add(self.width)
    }

    /// Half way down the box.
    fn middle(&self) -> usize {
        self.top.saturating_add(HEIGHT / 2)
    }
}

/// The nodes of a drawing, and which of them each function has.
#[derive(Drop)]
struct Drawing {
    nodes: Vec<Node>,
    /// By function, of which 0 is the script: the place of its node, for one that is hidden none.
    places: Vec<Option<usize>>,
    /// The right side of the widest row.
    right: usize,
}

/// How many columns a text takes.
fn columns_of(text: &[u8]) -> usize {
    let mut columns = 0usize;
    for letter in str::from_utf8(text).unwrap_or("").chars() {
        columns = columns.saturating_add(letter.width().unwrap_or(0));
    }
    columns
}

/// So many characters at most of a text that a terminal may show.
fn front_of(alloc: Global, text: &[u8], most: usize) -> Result<Vec<u8>, AllocError> {
    let mut front = Vec::new(alloc);
    append_chars(&mut front, str::from_utf8(text).unwrap_or(""), most)?;
    Ok(front)
}

/// The node of a function in this row and with so many functions around it.
fn node_of(
    alloc: Global,
    merged: &MergedStencil,
    number: u32,
    row: usize,
    level: usize,
) -> Result<Node, AllocError> {
    let mut name = Vec::new(alloc);
    append_script(alloc, &mut name, merged, number)?;
    let label = front_of(alloc, &name, MOST_OF_NAME)?;
    let width = columns_of(&label)
        .saturating_mul(COLUMN)
        .saturating_add(BESIDE);
    Ok(Node {
        number,
        left: level.saturating_mul(INDENT).saturating_add(4),
        top: row.saturating_mul(ROW).saturating_add(4),
        width,
        label,
    })
}

impl Drawing {
    /// The nodes of the functions that are shown, each in a row of its own.
    fn of(
        alloc: Global,
        merged: &MergedStencil,
        around: &[u32],
        shown: &[Shown],
    ) -> Result<Drawing, AllocError> {
        let levels = levels_of(alloc, around)?;
        let mut drawing = Drawing {
            nodes: Vec::new(alloc),
            places: Vec::new(alloc),
            right: 0,
        };
        let mut number = 0u32;
        for level in &levels {
            let row = drawing.nodes.len();
            if is_hidden(shown, number) {
                drawing.places.push(None)?;
            } else {
                let node = node_of(alloc, merged, number, row, *level)?;
                drawing.right = drawing.right.max(node.right());
                drawing.nodes.push(node)?;
                drawing.places.push(Some(row))?;
            }
            number = number.saturating_add(1);
        }
        Ok(drawing)
    }

    /// The node of a function that is shown.
    fn node(&self, number: u32) -> Option<&Node> {
        let place = self.places.get(number as usize).copied().flatten()?;
        self.nodes.get(place)
    }

    /// Where the names stand that a function closes over.
    fn names_left(&self) -> usize {
        self.right.saturating_add(REACH)
    }
}

/// Appends the box of a function, which is its link.
fn append_box(out: &mut Vec<u8>, file: usize, node: &Node) -> Result<(), AllocError> {
    append_numbers(out, &[("<a href=\"#f", file), ("n", node.number as usize)])?;
    append_numbers(
        out,
        &[
            ("\"><rect rx=\"4\" x=\"", node.left),
            ("\" y=\"", node.top),
            ("\" width=\"", node.width),
            ("\" height=\"", HEIGHT),
        ],
    )?;
    append_numbers(
        out,
        &[
            ("\"/><text x=\"", node.left.saturating_add(BESIDE / 2)),
            ("\" y=\"", node.top.saturating_add(14)),
        ],
    )?;
    append_all(out, &["\">"])?;
    append_text(out, &node.label)?;
    append_all(out, &["</text></a>\n"])
}

/// Appends the line from a function to one directly in it.
fn append_branch(out: &mut Vec<u8>, outer: &Node, inner: &Node) -> Result<(), AllocError> {
    append_numbers(
        out,
        &[
            ("<path class=\"inner\" d=\"M", outer.left.saturating_add(8)),
            (" ", outer.top.saturating_add(HEIGHT)),
            ("V", inner.middle()),
            ("H", inner.left),
        ],
    )?;
    append_all(out, &["\"/>\n"])
}

/// Appends the lines from functions to those directly in them.
fn append_branches(out: &mut Vec<u8>, drawing: &Drawing, around: &[u32]) -> Result<(), AllocError> {
    let mut number = 0u32;
    for outer in around {
        if number > 0 {
            if let (Some(outer), Some(inner)) = (drawing.node(*outer), drawing.node(number)) {
                append_branch(out, outer, inner)?;
            }
        }
        number = number.saturating_add(1);
    }
    Ok(())
}

/// Appends the arrow from a function to one of which it uses names.
fn append_arrow(
    out: &mut Vec<u8>,
    drawing: &Drawing,
    user: &Node,
    owner: &Node,
) -> Result<(), AllocError> {
    let rows = user.top.abs_diff(owner.top) / ROW;
    let bend = drawing
        .right
        .saturating_add(rows.saturating_mul(6).min(REACH).saturating_add(14));
    append_numbers(
        out,
        &[
            ("<path class=\"use\" data-user=\"", user.number as usize),
            ("\" data-owner=\"", owner.number as usize),
            ("\" d=\"M", user.right()),
            (" ", user.middle()),
            ("C", bend),
            (" ", user.middle()),
            (" ", bend),
            (" ", owner.middle()),
        ],
    )?;
    append_numbers(
        out,
        &[
            (" ", owner.right().saturating_add(6)),
            (" ", owner.middle()),
        ],
    )?;
    append_numbers(
        out,
        &[
            ("\"/><path class=\"head\" d=\"M", owner.right()),
            (" ", owner.middle()),
        ],
    )?;
    append_all(out, &["l7-4v8z\"/>\n"])
}

/// Appends the arrows, one for each two functions.
fn append_arrows(out: &mut Vec<u8>, drawing: &Drawing, edges: &[Edge]) -> Result<(), AllocError> {
    let mut drawn = None;
    for edge in edges {
        if drawn != Some((edge.user, edge.owner)) {
            drawn = Some((edge.user, edge.owner));
            if let (Some(user), Some(owner)) = (drawing.node(edge.user), drawing.node(edge.owner)) {
                append_arrow(out, drawing, user, owner)?;
            }
        }
    }
    Ok(())
}

/// Appends the names that a function closes over, in its row.
fn append_names(
    alloc: Global,
    out: &mut Vec<u8>,
    drawing: &Drawing,
    user: u32,
    names: &[u8],
) -> Result<(), AllocError> {
    let Some(node) = drawing.node(user) else {
        return Ok(());
    };
    append_numbers(
        out,
        &[
            ("<text class=\"names\" x=\"", drawing.names_left()),
            ("\" y=\"", node.top.saturating_add(14)),
        ],
    )?;
    append_all(out, &["\">"])?;
    let front = front_of(alloc, names, MOST_OF_NAMES)?;
    append_text(out, &front)?;
    append_all(out, &["</text>\n"])
}

/// Appends at each function the names that it closes over.
fn append_all_names(
    alloc: Global,
    out: &mut Vec<u8>,
    merged: &MergedStencil,
    drawing: &Drawing,
    edges: &[Edge],
) -> Result<(), AllocError> {
    let mut names = Vec::new(alloc);
    for (place, edge) in edges.iter().enumerate() {
        append_name(alloc, &mut names, text_at(&merged.texts, edge.atom))?;
        names.extend_from_slice(b" of ")?;
        append_owner(&mut names, edge.owner)?;
        let next = edges.get(place.saturating_add(1)).map(|next| next.user);
        if next == Some(edge.user) {
            names.extend_from_slice(b", ")?;
        } else {
            append_names(alloc, out, drawing, edge.user, &names)?;
            names.clear();
        }
    }
    Ok(())
}

/// Appends the drawing: a box for the script and for each function that is shown, in each row one, lines to those directly in it, and
/// dashed arrows to the functions of which it uses names.
fn append_drawing(
    alloc: Global,
    out: &mut Vec<u8>,
    file: usize,
    merged: &MergedStencil,
    shown: &[Shown],
    edges: &[Edge],
) -> Result<(), AllocError> {
    let around = around_functions(alloc, merged)?;
    let drawing = Drawing::of(alloc, merged, &around, shown)?;
    let names_width = MOST_OF_NAMES.saturating_mul(COLUMN);
    append_numbers(
        out,
        &[
            (
                "<svg class=\"closures\" width=\"",
                drawing.names_left().saturating_add(names_width),
            ),
            (
                "\" height=\"",
                drawing.nodes.len().saturating_mul(ROW).saturating_add(4),
            ),
        ],
    )?;
    append_all(out, &["\">\n"])?;
    append_branches(out, &drawing, &around)?;
    append_arrows(out, &drawing, edges)?;
    append_all_names(alloc, out, merged, &drawing, edges)?;
    for node in &drawing.nodes {
        append_box(out, file, node)?;
    }
    append_all(out, &["</svg>\n"])
}

/// Appends the row of a binding: its name, its function, and links to the functions that use it.
fn append_row(
    alloc: Global,
    out: &mut Vec<u8>,
    file: usize,
    merged: &MergedStencil,
    uses: &Uses,
    binding: usize,
) -> Result<(), AllocError> {
    let Some(bound) = uses.bindings.get(binding) else {
        return Ok(());
    };
    append_numbers(out, &[("<tr data-owner=\"", bound.function as usize)])?;
    append_all(out, &["\"><td class=\"name\">"])?;
    let mut name = Vec::new(alloc);
    append_name(alloc, &mut name, text_at(&merged.texts, bound.binding.atom))?;
    append_text(out, &name)?;
    append_numbers(
        out,
        &[
            ("</td><td><a href=\"#f", file),
            ("n", bound.function as usize),
        ],
    )?;
    append_all(out, &["\">"])?;
    append_owner(out, bound.function)?;
    append_all(out, &["</a></td><td>"])?;
    for one in uses.of_binding(binding) {
        append_numbers(
            out,
            &[
                ("<a href=\"#f", file),
                ("n", one.user as usize),
                ("\">", one.user as usize),
            ],
        )?;
        append_all(out, &["</a> "])?;
    }
    append_all(out, &["</td></tr>\n"])
}

/// Appends the table of the bindings that other functions than their own use.
fn append_table(
    alloc: Global,
    out: &mut Vec<u8>,
    file: usize,
    merged: &MergedStencil,
    uses: &Uses,
) -> Result<(), AllocError> {
    append_all(
        out,
        &["<table class=\"closed\">\n<tr><th>name</th><th>of</th><th>used by function</th></tr>\n"],
    )?;
    for binding in 0..uses.bindings.len() {
        if !uses.of_binding(binding).is_empty() {
            append_row(alloc, out, file, merged, uses, binding)?;
        }
    }
    append_all(out, &["</table>\n"])
}

/// Appends who closes over what: a drawing, and a table of the names that functions inside use.
pub(crate) fn append_closures(
    alloc: Global,
    out: &mut Vec<u8>,
    file: usize,
    merged: &MergedStencil,
    shown: &[Shown],
) -> Result<(), AllocError> {
    let uses = Uses::of(alloc, merged)?;
    let edges = edges_of(alloc, &uses, shown)?;
    append_drawing(alloc, out, file, merged, shown, &edges)?;
    if edges.is_empty() {
        append_all(out, &["<p>No function uses a name of another one.</p>\n"])
    } else {
        append_table(alloc, out, file, merged, &uses)
    }
}
