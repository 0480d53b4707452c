//! Texts, numbers and extents, as they are printed.

ghost use Rattle.std.specs.Prelude.{◌≡◌, ◌<◌, ◌≤◌, [], ◌∷◌, ◌++◌, flat_map, option_map, replicate, OnOk};
ghost use Rattle.std.specs.Fmt.{decimal};
ghost use Rattle.stencil_data.specs.StandsFor as stands;
ghost use Rattle.script_image.specs.Quoted as printed;

use crate::chunk::{Chunk, put, put_byte, put_eight};
use itoa::Buffer;
use std::alloc::AllocError;
use stencil_data::{Extent, Text};

/// Appends the decimal digits of a number. It takes no memory but that of the list.
pub fn append_decimal(out: &mut Vec<u8>, number: u64) -> Result<(), AllocError>
    ensures { OnOk result (out.new.items ≡ out.old.items ++ decimal number) }
{
    let mut buffer = Buffer::new();
    out.extend_from_slice(buffer.format(number).as_bytes())?;
    Ok(())
}

/// Puts the decimal digits of a number after a chunk. Most numbers have one.
#[tactic(auto, using(std::proofs::lemmas::Fmt::decimal_digit))]
pub(crate) fn put_decimal(
    out: &mut Vec<u8>,
    chunk: &mut Chunk,
    number: u64,
) -> Result<(), AllocError>
    ensures { OnOk result (out.new.items ++ chunk.new.items ≡ (out.old.items ++ chunk.old.items) ++ decimal number) }
{
    if number < 10 {
        return put_byte(out, chunk, b'0' + number as u8);
    }
    let mut buffer = Buffer::new();
    put(out, chunk, buffer.format(number).as_bytes())
}

/// n digits 0, at most five.
fn zeros(count: usize) -> &'static [u8]
    requires { count ≤ 5 }
    ensures { result.now ≡ replicate count 48 }
{
    &b"00000"[..count]
}

/// The column of an offset that has at most five digits: two blanks, five digits, a blank.
#[tactic(auto, using(crate::proofs::Padded::padded_five))]
fn five_digits(number: u64) -> [u8; 8]
    requires { number < 100000 }
    ensures { result ≡ ((32 ∷ 32 ∷ []) ++ printed.padded number) ++ 32 ∷ [] }
{
    [
        b' ',
        b' ',
        b'0' + (number / 10000) as u8,
        b'0' + (number / 1000 % 10) as u8,
        b'0' + (number / 100 % 10) as u8,
        b'0' + (number / 10 % 10) as u8,
        b'0' + (number % 10) as u8,
        b' ',
    ]
}

/// Puts the decimal digits of a number after a chunk, at least five.
fn put_padded(out: &mut Vec<u8>, chunk: &mut Chunk, number: u64) -> Result<(), AllocError>
    ensures { OnOk result (out.new.items ++ chunk.new.items ≡ (out.old.items ++ chunk.old.items) ++ printed.padded number) }
{
    let mut buffer = Buffer::new();
    let digits = buffer.format(number).as_bytes();
    put(out, chunk, zeros(5usize.saturating_sub(digits.len())))?;
    put(out, chunk, digits)
}

/// Puts the column of an offset after a chunk: two blanks, its decimal digits, at least five, and a blank.
pub(crate) fn put_column(
    out: &mut Vec<u8>,
    chunk: &mut Chunk,
    offset: u64,
) -> Result<(), AllocError>
    ensures { OnOk result (out.new.items ++ chunk.new.items
        ≡ (out.old.items ++ chunk.old.items) ++ (((32 ∷ 32 ∷ []) ++ printed.padded offset) ++ 32 ∷ [])) }
{
    if offset < 100000 {
        return put_eight(out, chunk, &five_digits(offset));
    }
    put(out, chunk, b"  ")?;
    put_padded(out, chunk, offset)?;
    put_byte(out, chunk, b' ')
}

fn hex_digit(value: u8) -> u8
    requires { value < 16 }
    ensures { result ≡ printed.hex_digit value }
{
    if value <= 9 { b'0' + value } else { 87 + value }
}

fn is_plain(unit: u16) -> bool
    ensures { result ≡ printed.is_plain unit }
{
    (32 <= unit && unit <= 126) && (unit != 34 && unit != 92)
}

fn escaped(unit: u16) -> [u8; 6]
    ensures { result ≡ printed.escaped unit }
{
    [
        b'\\',
        b'u',
        hex_digit((unit / 4096) as u8),
        hex_digit((unit / 256 % 16) as u8),
        hex_digit((unit / 16 % 16) as u8),
        hex_digit((unit % 16) as u8),
    ]
}

fn put_unit(out: &mut Vec<u8>, chunk: &mut Chunk, unit: u16) -> Result<(), AllocError>
    ensures { OnOk result (out.new.items ++ chunk.new.items ≡ (out.old.items ++ chunk.old.items) ++ printed.quoted_unit unit) }
{
    if is_plain(unit) {
        put_byte(out, chunk, unit as u8)
    } else {
        put(out, chunk, &escaped(unit))
    }
}

fn put_units(out: &mut Vec<u8>, chunk: &mut Chunk, units: &[u16]) -> Result<(), AllocError>
    ensures { OnOk result (out.new.items ++ chunk.new.items ≡ (out.old.items ++ chunk.old.items) ++ flat_map printed.quoted_unit units.now) }
{
    for unit in units {
        put_unit(out, chunk, *unit)?;
    }
    Ok(())
}

/// Puts a text between double quotes after a chunk.
pub(crate) fn put_quoted(
    out: &mut Vec<u8>,
    chunk: &mut Chunk,
    units: &[u16],
) -> Result<(), AllocError>
    ensures { OnOk result (out.new.items ++ chunk.new.items ≡ (out.old.items ++ chunk.old.items) ++ printed.quoted units.now) }
{
    put_byte(out, chunk, b'"')?;
    put_units(out, chunk, units)?;
    put_byte(out, chunk, b'"')
}

/// The text of an atom, the empty one where there is none.
pub(crate) fn text_at(texts: &[Text], atom: u64) -> &[u16]
    ensures { result.now ≡ stands.text_at texts.now atom }
{
    match texts.get(atom as usize) {
        None => &[],
        Some(text) => text.units(),
    }
}

/// Puts a name after a chunk, or `-` where there is none.
pub(crate) fn put_name(
    out: &mut Vec<u8>,
    chunk: &mut Chunk,
    texts: &[Text],
    name: Option<u32>,
) -> Result<(), AllocError>
    ensures { OnOk result (out.new.items ++ chunk.new.items
        ≡ (out.old.items ++ chunk.old.items) ++ printed.name_text (option_map (stands.text_at texts.now) name)) }
{
    match name {
        None => put_byte(out, chunk, b'-'),
        Some(atom) => put_quoted(out, chunk, text_at(texts, u64::from(atom))),
    }
}

/// Puts `start..end` after a chunk.
pub(crate) fn put_range(
    out: &mut Vec<u8>,
    chunk: &mut Chunk,
    start: u64,
    end: u64,
) -> Result<(), AllocError>
    ensures { OnOk result (out.new.items ++ chunk.new.items ≡ (out.old.items ++ chunk.old.items) ++ printed.range_text start end) }
{
    put_decimal(out, chunk, start)?;
    put(out, chunk, b"..")?;
    put_decimal(out, chunk, end)
}

/// Puts an extent after a chunk.
pub(crate) fn put_extent(
    out: &mut Vec<u8>,
    chunk: &mut Chunk,
    extent: Extent,
) -> Result<(), AllocError>
    ensures { OnOk result (out.new.items ++ chunk.new.items ≡ (out.old.items ++ chunk.old.items) ++ printed.extent_text extent) }
{
    put_range(out, chunk, u64::from(extent.start), u64::from(extent.end))
}
