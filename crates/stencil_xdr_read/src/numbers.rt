//! Numbers, low byte first.

ghost use Rattle.stencil_xdr_read.specs.Reading as part;
ghost use Rattle.stencil_xdr_read.specs.Unique as unique_parts;

use crate::fault::ImageFault;
use crate::part::{Part, Reader};
use std::alloc::Global;

impl Part for u16 {
    ghost bytes = { part.number 2 };

    ghost fits = { part.Fits 2 };

    ghost unique = { unique_parts.unique_numbers 2 };

    fn read(alloc: Global, reader: &mut Reader<'_>) -> Result<u16, ImageFault> {
        let (low, high) = <(u8, u8)>::read(alloc, reader)?;
        Ok(u16::from(low) + 256 * u16::from(high))
    }
}

impl Part for u32 {
    ghost bytes = { part.number 4 };

    ghost fits = { part.Fits 4 };

    ghost unique = { unique_parts.unique_numbers 4 };

    fn read(alloc: Global, reader: &mut Reader<'_>) -> Result<u32, ImageFault> {
        let (low, high) = <(u16, u16)>::read(alloc, reader)?;
        Ok(u32::from(low) + 65536 * u32::from(high))
    }
}

impl Part for u64 {
    ghost bytes = { part.number 8 };

    ghost fits = { part.Fits 8 };

    ghost unique = { unique_parts.unique_numbers 8 };

    fn read(alloc: Global, reader: &mut Reader<'_>) -> Result<u64, ImageFault> {
        let (low, high) = <(u32, u32)>::read(alloc, reader)?;
        Ok(u64::from(low) + 4_294_967_296 * u64::from(high))
    }
}
