//! The graph of functions and of who closes over what, in the language DOT of Graphviz.

use crate::uses::{Use, Uses};
use holzikra_finding::Shown;
use holzikra_names::{append_name, append_script, around_functions, text_at};
use script_image::append_decimal;
use std::alloc::{AllocError, Global};
use stencil_data::MergedStencil;

/// Appends bytes as a part of a string of DOT.
fn append_escaped(out: &mut Vec<u8>, bytes: &[u8]) -> Result<(), AllocError> {
    for byte in bytes {
        if *byte == b'"' || *byte == b'\\' {
            out.push(b'\\')?;
        }
        out.push(*byte)?;
    }
    Ok(())
}

/// Appends the name of the node of a function.
fn append_node(out: &mut Vec<u8>, number: u32) -> Result<(), AllocError> {
    out.extend_from_slice(b"f")?;
    append_decimal(out, u64::from(number))
}

fn append_labelled_node(
    alloc: Global,
    out: &mut Vec<u8>,
    merged: &MergedStencil,
    number: u32,
) -> Result<(), AllocError> {
    let mut label = Vec::new(alloc);
    append_script(alloc, &mut label, merged, number)?;
    out.extend_from_slice(b"  ")?;
    append_node(out, number)?;
    out.extend_from_slice(b" [label=\"")?;
    append_escaped(out, &label)?;
    out.extend_from_slice(b"\"];\n")?;
    Ok(())
}

/// Appends the edge from a function to one directly in it.
fn append_inner_edge(out: &mut Vec<u8>, outer: u32, inner: u32) -> Result<(), AllocError> {
    out.extend_from_slice(b"  ")?;
    append_node(out, outer)?;
    out.extend_from_slice(b" -> ")?;
    append_node(out, inner)?;
    out.extend_from_slice(b";\n")?;
    Ok(())
}

/// Whether a function is not drawn, where so much is shown of each script.
pub fn is_hidden(shown: &[Shown], number: u32) -> bool {
    shown.get(number as usize).copied() == Some(Shown::Hidden)
}

/// Appends a node for the script and for each function that is shown.
fn append_nodes(
    alloc: Global,
    out: &mut Vec<u8>,
    merged: &MergedStencil,
    around: &[u32],
    shown: &[Shown],
) -> Result<(), AllocError> {
    let mut number = 0u32;
    for _ in around {
        if !is_hidden(shown, number) {
            append_labelled_node(alloc, out, merged, number)?;
        }
        number = number.saturating_add(1);
    }
    Ok(())
}

/// Appends an edge to each function that is shown from the one around it.
fn append_inner_edges(
    out: &mut Vec<u8>,
    around: &[u32],
    shown: &[Shown],
) -> Result<(), AllocError> {
    let mut number = 0u32;
    for outer in around {
        if number > 0 && !is_hidden(shown, number) {
            append_inner_edge(out, *outer, number)?;
        }
        number = number.saturating_add(1);
    }
    Ok(())
}

/// A use with the function that owns the binding, and the atom of the name.
#[derive(Clone, Copy)]
pub struct Edge {
    pub user: u32,
    pub owner: u32,
    pub atom: u32,
}

fn edge_of(uses: &Uses, one: Use) -> Option<Edge> {
    let bound = uses.bindings.get(one.binding)?;
    Some(Edge {
        user: one.user,
        owner: bound.function,
        atom: bound.binding.atom,
    })
}

/// The uses of bindings of functions that are shown by such functions, by user and then by owner.
pub fn edges_of(alloc: Global, uses: &Uses, shown: &[Shown]) -> Result<Vec<Edge>, AllocError> {
    let mut edges = Vec::new(alloc);
    for one in &uses.all {
        if let Some(edge) = edge_of(uses, *one) {
            if !is_hidden(shown, edge.user) && !is_hidden(shown, edge.owner) {
                edges.push(edge)?;
            }
        }
    }
    edges.sort_by_key(|edge| (edge.user, edge.owner))?;
    Ok(edges)
}

/// Appends the edges from users to owners, one for each two functions, with the names that are used.
fn append_uses(
    alloc: Global,
    out: &mut Vec<u8>,
    merged: &MergedStencil,
    edges: &[Edge],
) -> Result<(), AllocError> {
    let mut drawn = None;
    for edge in edges {
        if drawn == Some((edge.user, edge.owner)) {
            out.extend_from_slice(b", ")?;
        } else {
            if drawn.is_some() {
                out.extend_from_slice(b"\"];\n")?;
            }
            out.extend_from_slice(b"  ")?;
            append_node(out, edge.user)?;
            out.extend_from_slice(b" -> ")?;
            append_node(out, edge.owner)?;
            out.extend_from_slice(b" [style=dashed, label=\"")?;
            drawn = Some((edge.user, edge.owner));
        }
        let mut name = Vec::new(alloc);
        append_name(alloc, &mut name, text_at(&merged.texts, edge.atom))?;
        append_escaped(out, &name)?;
    }
    if drawn.is_some() {
        out.extend_from_slice(b"\"];\n")?;
    }
    Ok(())
}

/// Appends a graph: a node for each function and for the script, solid edges from each function to those directly in it, and dashed
/// edges from each function to those whose names it closes over, labelled with the names. `shown` says of the script and of each function in
/// order of number what is shown of it; behind its end all is. What is hidden has no node and no edge.
///
/// It takes time in proportion to the code, up to the logarithm of sorting, and is an error only where memory runs out.
pub fn scope_graph(
    alloc: Global,
    merged: &MergedStencil,
    shown: &[Shown],
    out: &mut Vec<u8>,
) -> Result<(), AllocError> {
    let uses = Uses::of(alloc, merged)?;
    let around = around_functions(alloc, merged)?;
    out.extend_from_slice(b"digraph scopes {\n")?;
    append_nodes(alloc, out, merged, &around, shown)?;
    append_inner_edges(out, &around, shown)?;
    append_uses(alloc, out, merged, &edges_of(alloc, &uses, shown)?)?;
    out.extend_from_slice(b"}\n")?;
    Ok(())
}
