//! A chunk of what is printed: bytes that are gathered on the stack and appended to the list when it is full, since appending
//! to a list costs much the same for one byte as for a hundred.

ghost use Rattle.std.specs.Prelude.{◌≡◌, [], ◌∷◌, ◌++◌, OnOk};

use arrayvec::ArrayVec;
use std::alloc::AllocError;

/// Bytes that stand after those of the list.
pub(crate) type Chunk = ArrayVec<u8, 128>;

/// Appends the chunk to the list, and empties it.
pub(crate) fn flush(out: &mut Vec<u8>, chunk: &mut Chunk) -> Result<(), AllocError>
    ensures items { OnOk result (out.new.items ≡ out.old.items ++ chunk.old.items) }
    ensures empty { OnOk result (chunk.new.items ≡ []) }
{
    out.extend_from_slice(chunk.as_slice())?;
    *chunk = Chunk::new();
    Ok(())
}

/// Appends the chunk to the list, and bytes after it.
#[cold]
fn flush_and_append(out: &mut Vec<u8>, chunk: &mut Chunk, bytes: &[u8]) -> Result<(), AllocError>
    ensures { OnOk result (out.new.items ++ chunk.new.items ≡ (out.old.items ++ chunk.old.items) ++ bytes.now) }
{
    flush(out, chunk)?;
    out.extend_from_slice(bytes)?;
    Ok(())
}

/// Puts bytes after the chunk.
#[inline]
pub(crate) fn put(out: &mut Vec<u8>, chunk: &mut Chunk, bytes: &[u8]) -> Result<(), AllocError>
    ensures { OnOk result (out.new.items ++ chunk.new.items ≡ (out.old.items ++ chunk.old.items) ++ bytes.now) }
{
    if chunk.try_extend_from_slice(bytes).is_ok() {
        return Ok(());
    }
    flush_and_append(out, chunk, bytes)
}

/// Puts eight bytes after the chunk, as it puts any others, but that a copy of eight takes one step.
#[inline(always)]
pub(crate) fn put_eight(
    out: &mut Vec<u8>,
    chunk: &mut Chunk,
    bytes: &[u8; 8],
) -> Result<(), AllocError>
    ensures { OnOk result (out.new.items ++ chunk.new.items ≡ (out.old.items ++ chunk.old.items) ++ bytes.now) }
{
    if chunk.try_extend_from_slice(bytes).is_ok() {
        return Ok(());
    }
    flush_and_append(out, chunk, bytes)
}

/// Puts a byte after the chunk.
#[inline]
pub(crate) fn put_byte(out: &mut Vec<u8>, chunk: &mut Chunk, byte: u8) -> Result<(), AllocError>
    ensures { OnOk result (out.new.items ++ chunk.new.items ≡ (out.old.items ++ chunk.old.items) ++ byte ∷ []) }
{
    if chunk.try_push(byte).is_ok() {
        return Ok(());
    }
    flush_and_append(out, chunk, &[byte])
}
