//! Lines and columns of offsets, where the source text is at hand.

use script_image::append_decimal;
use std::alloc::AllocError;
use stencil_data::Extent;

/// A place of a source text: the line, and the column in 16-bit units of UTF-16, each from 1.
#[derive(Clone, Copy)]
pub struct Spot {
    pub line: usize,
    pub column: usize,
}

/// What is known of the source text of a script.
pub trait Source {
    /// The place of an offset in bytes.
    fn spot(&self, offset: u32) -> Option<Spot>;

    /// The bytes of the line of an offset, without its end.
    fn line_of(&self, offset: u32) -> Option<&[u8]>;
}

/// No source text, as an image has none.
#[derive(Clone, Copy)]
pub struct NoSource;

impl Source for NoSource {
    fn spot(&self, _offset: u32) -> Option<Spot> {
        None
    }

    fn line_of(&self, _offset: u32) -> Option<&[u8]> {
        None
    }
}

/// Appends `LINE:COLUMN`.
pub fn append_spot(out: &mut Vec<u8>, spot: Spot) -> Result<(), AllocError> {
    append_decimal(out, spot.line as u64)?;
    out.extend_from_slice(b":")?;
    append_decimal(out, spot.column as u64)
}

/// Appends `LINE:COLUMN to LINE:COLUMN` behind these bytes, or nothing where the source text is not at hand.
pub fn append_extent<S: Source>(
    out: &mut Vec<u8>,
    before: &[u8],
    source: &S,
    extent: Extent,
) -> Result<(), AllocError> {
    let Some(start) = source.spot(extent.start) else {
        return Ok(());
    };
    let Some(end) = source.spot(extent.end) else {
        return Ok(());
    };
    out.extend_from_slice(before)?;
    append_spot(out, start)?;
    out.extend_from_slice(b" to ")?;
    append_spot(out, end)
}
