//! What is kept of each function.

ghost use Rattle.std.specs.Prelude.{◌≡◌, map, IfOk};
ghost use Rattle.compile_initial.specs.Records.{AreRecordsOf, HaveNumbers, around_at, record_at, start_at};

use crate::Nesting;
use compile_numbers::{ClosedNames, numbers_of};
use parse_function_list::ListedFunction;
use std::alloc::{AllocError, Global};
use stencil_data::LazyRecord;

/// Where functions start.
fn starts_of(alloc: Global, functions: &[ListedFunction]) -> Result<Vec<u32>, AllocError>
    ensures { IfOk result (λ starts. starts.items ≡ map start_at functions.now) }
{
    let mut starts = Vec::with_capacity(alloc, functions.len())?;
    for function in functions {
        starts.push(function.extent.start)?;
    }
    Ok(starts)
}

/// The record of a function among those that start at these offsets.
fn record_of(
    alloc: Global,
    starts: &[u32],
    closed: &ClosedNames,
    function: &ListedFunction,
) -> Result<LazyRecord, AllocError>
    ensures { IfOk result (λ lazy. HaveNumbers starts.now → lazy ≡ record_at starts.now closed.now function.now) }
{
    Ok(LazyRecord {
        extent: function.extent,
        kind: function.kind,
        name: function.name,
        inner: numbers_of(alloc, starts, &function.inner)?,
        closed: Vec::from_slice(alloc, closed.of_function(function.extent.start))?,
    })
}

/// The records of all functions of a script, in order of number, where these are its closed names.
pub(crate) fn records_of(
    alloc: Global,
    functions: &[ListedFunction],
    closed: &ClosedNames,
) -> Result<Vec<LazyRecord>, AllocError>
    ensures { IfOk result (λ records. AreRecordsOf closed.now functions.now records.items) }
{
    let starts = starts_of(alloc, functions)?;
    let mut records = Vec::with_capacity(alloc, functions.len())?;
    for function in functions {
        records.push(record_of(alloc, &starts, closed, function)?)?;
    }
    Ok(records)
}

/// Where each function stands.
pub(crate) fn around_of(
    alloc: Global,
    functions: &[ListedFunction],
) -> Result<Vec<Nesting>, AllocError>
    ensures { IfOk result (λ around. around.items ≡ map around_at functions.now) }
{
    let mut around = Vec::with_capacity(alloc, functions.len())?;
    for function in functions {
        around.push(Nesting {
            number: function.around,
            place: function.place,
        })?;
    }
    Ok(around)
}
