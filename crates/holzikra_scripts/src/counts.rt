//! The counts of a script.

ghost use Rattle.std.specs.Prelude.{◌≡◌, length, IfOk};
ghost use Rattle.holzikra_stats.specs.Counts as counts;

use holzikra_depths::depths_of;
use holzikra_json::Members;
use holzikra_stats::{Counts, counts_of};
use std::alloc::{AllocError, Global};
use stencil_data::MergedStencil;

/// What is counted of a script.
#[derive(Clone, Copy)]
pub struct Row {
    pub counts: Counts,
    /// The values that the stack of one of its functions, or of the script, has at most.
    pub depth: u64,
    /// The bytes of the source text.
    pub source_bytes: usize,
}

/// The greatest of some depths.
fn greatest(depths: &[Option<u64>]) -> u64 {
    let mut most = 0;
    for depth in depths {
        most = most.max(depth.unwrap_or(0));
    }
    most
}

/// The counts of a script, which was compiled of this text.
pub fn row_of(alloc: Global, text: &[u8], stencil: &MergedStencil) -> Result<Row, AllocError>
    ensures functions { IfOk result (λ row. row.counts.functions ≡ length stencil.now.records) }
    ensures closed { IfOk result (λ row. row.counts.closed ≡ counts.closed_count stencil.now) }
    ensures instructions { IfOk result (λ row. row.counts.instructions ≡ counts.instruction_count stencil.now) }
    ensures bytes { IfOk result (λ row. row.counts.bytes ≡ counts.byte_count stencil.now) }
    ensures source { IfOk result (λ row. row.source_bytes ≡ length text.now) }
{
    let counts = counts_of(alloc, stencil)?;
    let depths = depths_of(alloc, stencil)?;
    Ok(Row {
        counts,
        depth: greatest(&depths),
        source_bytes: text.len(),
    })
}

/// A count as a number of JSON, which ends at 2^64 - 1.
fn as_number(count: u128) -> Option<u64> {
    Some(u64::try_from(count).unwrap_or(u64::MAX))
}

/// The counts of a script as a JSON object in a line.
pub fn row_line(alloc: Global, name: &str, row: &Row) -> Result<String, AllocError> {
    let mut members = Members::of_file(alloc, name, "script")?;
    members.number("bytes", Some(row.source_bytes as u64))?;
    members.number("closed", as_number(row.counts.closed))?;
    members.number("code_bytes", as_number(row.counts.bytes))?;
    members.number("depth", Some(row.depth))?;
    members.number("functions", Some(row.counts.functions as u64))?;
    members.number("instructions", as_number(row.counts.instructions))?;
    members.number("nested", Some(u64::from(row.counts.nested)))?;
    members.line()
}
