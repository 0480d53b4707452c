//! Whether bytes are of ASCII alone.

ghost use Rattle.std.specs.Prelude.{◌≤◌, length, take, IsTrue};
ghost use Rattle.std.specs.Bool.{MatchBool};
ghost use Rattle.std.specs.Str.{IsAscii, IsNotAscii};

use std::simd::prelude::*;

/// How many bytes are looked at together.
const BLOCK: usize = 64;

/// Whether a block is of ASCII: no byte of it has its highest bit.
#[inline]
fn is_ascii_block(block: u8x64) -> bool
    ensures { IsTrue result → IsAscii block }
{
    block.simd_ge(u8x64::splat(0x80)).to_bitmask() == 0
}

/// How many bytes at the front stand in whole blocks of ASCII.
fn ascii_blocks(bytes: &[u8]) -> usize
    ensures within { result ≤ length bytes.now }
    ensures ascii { IsAscii (take result bytes.now) }
{
    let mut at = 0;
    while bytes.len() - at >= BLOCK {
        if !is_ascii_block(u8x64::from_slice(&bytes[at..])) {
            break;
        }
        at += BLOCK;
    }
    at
}

/// Whether bytes are of ASCII alone. It looks at them 64 at a time, up to the first 64 that are not.
pub fn is_ascii(bytes: &[u8]) -> bool
    ensures cases { MatchBool result (IsAscii bytes.now) (IsNotAscii bytes.now) }
{
    let front = ascii_blocks(bytes);
    bytes[front..].is_ascii()
}
