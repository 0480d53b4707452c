//! Code points of a source text with their places, and the 16-bit units of a code point.
//!
//! The lowest crate of the pipeline: what reads a file that is not of ASCII alone, as [`is_ascii`] tells, hands its bytes to [`decode`],
//! and the scanner reads the points. `decode` answers exactly the code points that the bytes spell in UTF-8, or the
//! length of their longest well-formed front; [`units_of`] answers the UTF-16 units of a code point.
#![tactic(auto)]

mod ascii;

ghost use Rattle.std.specs.Prelude.{◌≡◌, ◌≤◌, IfOk, IfErr, OnOk, length, take, map};
ghost use Rattle.std.specs.Str.{IsAscii, IsUtf8, chars, encode_utf8_all};
ghost use Rattle.unit_text.specs.Points.{points, points_from, code_of, codes_of, LieEndToEnd, SpellLongestFront};
ghost use Rattle.unit_text.specs.Faults.{IsFaultOf};
ghost use Rattle.unit_text.specs.Units.{code_units};
ghost use Rattle.unit_text.specs.declared.DecodeFault.TheVariants.{NoMemory};

pub use ascii::is_ascii;
use std::alloc::{AllocError, AllocFailed, Global};

/// A code point of a source text, with the offsets of its first byte and of the byte after it.
#[derive(Clone, Copy, Debug, PartialEq, Eq)]
pub struct Point {
    /// The code point, which UTF-8 spells, so never a surrogate (ECMA-262, 12th edition, clause 11.1).
    pub code: char,
    /// The offset of its first byte.
    pub start: u32,
    /// The offset after its last byte.
    pub end: u32,
}

/// Why bytes gave no code points.
#[derive(Debug, PartialEq, Eq, Drop)]
pub enum DecodeFault {
    /// The bytes are not UTF-8: those before `offset` are their longest front that is.
    BadUtf8 {
        /// The length of the longest front that is UTF-8, in bytes.
        offset: u32,
    },
    /// Memory ran out.
    NoMemory,
}

impl From<AllocError> for DecodeFault {
    ghost from_gives = { λ _ fault. fault ≡ NoMemory };

    fn from(_: AllocError) -> DecodeFault {
        DecodeFault::NoMemory
    }
}

impl From<AllocFailed<Point>> for DecodeFault {
    ghost from_gives = { λ _ fault. fault ≡ NoMemory };

    fn from(_: AllocFailed<Point>) -> DecodeFault {
        DecodeFault::NoMemory
    }
}

/// The code points that the bytes spell in UTF-8, in order and with their places.
///
/// Takes 12 bytes of memory for each code point and a time linear in the bytes.
pub fn decode(alloc: Global, bytes: &[u8]) -> Result<Vec<Point>, DecodeFault>
    requires { length bytes.now ≤ 16777215 }
    ensures value { IfOk result (λ ps. ps.items ≡ points bytes.now) }
    ensures utf8 { OnOk result (IsUtf8 bytes.now) }
    ensures spelled { IfOk result (λ ps. encode_utf8_all (map code_of ps.items) ≡ bytes.now) }
    ensures end_to_end { IfOk result (λ ps. LieEndToEnd 0 ps.items) }
    ensures few { IfOk result (λ ps. length ps.items ≤ length bytes.now) }
    ensures fault { IfErr result (IsFaultOf bytes.now) }
    ensures longest { SpellLongestFront bytes.now (codes_of bytes.now) }
{
    match str::from_utf8(bytes) {
        Ok(text) => Ok(points_of(alloc, text)?),
        Err(fault) => Err(bad_utf8(fault.valid_up_to())),
    }
}

fn bad_utf8(front: usize) -> DecodeFault
    requires { front ≤ 16777215 }
    ensures { result ≡ DecodeFault.BadUtf8 front }
{
    DecodeFault::BadUtf8 {
        offset: front as u32,
    }
}

// The points of a text. Most scripts are of ASCII alone, so these have a loop of their own.
fn points_of(alloc: Global, text: &str) -> Result<Vec<Point>, AllocError>
    requires { length text.now ≤ 16777215 }
    ensures { IfOk result (λ ps. ps.items ≡ points_from 0 (chars text.now)) }
{
    if is_ascii(text.as_bytes()) {
        ascii_points(alloc, text.as_bytes())
    } else {
        unicode_points(alloc, text)
    }
}

// The points of bytes of ASCII, one each.
#[tactic(auto, using(crate::proofs::Decoding::ascii_more, crate::proofs::Decoding::ascii_all))]
fn ascii_points(alloc: Global, bytes: &[u8]) -> Result<Vec<Point>, AllocError>
    requires few { length bytes.now ≤ 16777215 }
    requires ascii { IsAscii bytes.now }
    ensures { IfOk result (λ ps. ps.items ≡ points_from 0 (chars bytes.now)) }
{
    let mut points = Vec::with_capacity(alloc, bytes.len())?;
    for at in 0..bytes.len() {
        points.push_reserved(Point {
            code: char::from(bytes[at]),
            start: at as u32,
            end: at as u32 + 1,
        });
    }
    Ok(points)
}

// The points of any text.
fn unicode_points(alloc: Global, text: &str) -> Result<Vec<Point>, AllocError>
    requires { length text.now ≤ 16777215 }
    ensures { IfOk result (λ ps. ps.items ≡ points_from 0 (chars text.now)) }
{
    let mut points = Vec::with_capacity(alloc, text.chars().count())?;
    for (start, code) in text.char_indices() {
        let end = start + code.len_utf8();
        points.push(Point {
            code,
            start: start as u32,
            end: end as u32,
        })?;
    }
    Ok(points)
}

/// The UTF-16 units of a code point, in the first places, and how many they are: 1 or 2
/// (ECMA-262, 12th edition, clause 11.1.1).
pub fn units_of(code: char) -> ([u16; 2], u8)
    ensures value { take result.1 result.0 ≡ code_units code }
    ensures count { result.1 ≤ 2 }
{
    units_of_value(code as u32)
}

/// The same, of a number of at most 10FFFF, which may be that of a surrogate.
pub fn units_of_value(code: u32) -> ([u16; 2], u8)
    requires { code ≤ 0x10_FFFF }
    ensures value { take result.1 result.0 ≡ code_units code }
    ensures count { result.1 ≤ 2 }
{
    if code <= 0xFFFF {
        return ([code as u16, 0], 1);
    }
    let offset = code - 0x1_0000;
    let high = offset / 0x400 + 0xD800;
    let low = offset % 0x400 + 0xDC00;
    ([high as u16, low as u16], 2)
}
