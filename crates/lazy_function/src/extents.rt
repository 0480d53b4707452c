//! The extents of the functions that a record names.

ghost use Rattle.std.specs.Prelude.{◌≡◌, map, IfOk, Some};
ghost use Rattle.std.specs.List.{All};
ghost use Rattle.compile_lazy_laws.specs.Inside.{IsNumberOf, extents_at};

use std::alloc::{AllocError, Global};
use stencil_data::{Extent, LazyRecord};

/// The extent of the function that has this record.
fn extent_of(lazy: &LazyRecord) -> Extent
    ensures { result ≡ lazy.now.extent }
{
    lazy.extent
}

/// The extents of the functions of these numbers, by the records of all functions.
fn extents_of(
    alloc: Global,
    records: &[LazyRecord],
    numbers: &[u32],
) -> Result<Vec<Extent>, AllocError>
    requires { All (IsNumberOf records.now) numbers.now }
    ensures { IfOk result (λ extents. map Some extents.items ≡ extents_at records.now numbers.now) }
{
    let mut extents = Vec::new(alloc);
    for number in numbers {
        extents.push(extent_of(&records[*number as usize - 1]))?;
    }
    Ok(extents)
}

/// The extents of the functions directly in the one that has this record.
pub(crate) fn extents_inside(
    alloc: Global,
    records: &[LazyRecord],
    lazy: &LazyRecord,
) -> Result<Vec<Extent>, AllocError>
    requires { All (IsNumberOf records.now) lazy.now.inner }
    ensures { IfOk result (λ extents. map Some extents.items ≡ extents_at records.now lazy.now.inner) }
{
    extents_of(alloc, records, &lazy.inner)
}
