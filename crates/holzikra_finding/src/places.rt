//! The function around a place.

ghost use Rattle.std.specs.Prelude.{◌≡◌, ◌↔◌, ◌-◌, IsTrue};
ghost use Rattle.holzikra_finding.specs.Finding as finding;

use stencil_data::{Extent, LazyRecord};

/// A function by its place among the records of a script, with its extent.
#[derive(Clone, Copy)]
pub(crate) struct Found {
    place: usize,
    extent: Extent,
}

fn contains(extent: Extent, offset: usize) -> bool
    ensures { IsTrue result ↔ finding.Contains extent offset }
{
    (extent.start as usize) <= offset && offset < (extent.end as usize)
}

/// How many bytes an extent has.
fn width(extent: Extent) -> u32
    ensures { result ≡ extent.end - extent.start }
{
    extent.end.saturating_sub(extent.start)
}

/// Whether an extent has fewer bytes than the one that was found, if one was.
fn is_narrower(extent: Extent, found: Option<Found>) -> bool
    ensures { IsTrue result ↔ finding.IsNarrower extent found }
{
    match found {
        None => true,
        Some(found) => width(extent) < width(found.extent),
    }
}

/// Of the functions that contain an offset the first one with the fewest bytes.
fn narrowest_at(records: &[LazyRecord], offset: usize) -> Option<Found>
    ensures { finding.IsNarrowestAt records.now records.now offset result }
{
    let mut found = None;
    for (place, lazy) in records.iter().enumerate() {
        let extent = lazy.extent;
        if contains(extent, offset) && is_narrower(extent, found) {
            found = Some(Found { place, extent });
        }
    }
    found
}

/// The place among the records of the innermost function that contains an offset of the source text. It takes time in proportion to the
/// functions, and no memory.
pub fn innermost_at(records: &[LazyRecord], offset: usize) -> Option<usize>
    ensures { finding.IsInnermostAt records.now offset result }
{
    match narrowest_at(records, offset) {
        None => None,
        Some(found) => Some(found.place),
    }
}
