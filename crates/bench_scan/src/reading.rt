//! The tokens of a text, read as a file of a script is.
ghost use Rattle.std.specs.Prelude.{◌≤◌, length};

use anyhow::{Result, bail};
use parser_atoms::Atoms;
use script_grammar::compact::CompactToken;
use script_scanner::{scan, scan_ascii};
use std::alloc::Global;
use unit_text::{decode, is_ascii};

/// The tokens of a text, and the texts that their atoms index. A text of ASCII is scanned as bytes, any other is decoded first.
pub fn tokens_of(alloc: Global, bytes: &[u8]) -> Result<(Vec<CompactToken>, Atoms)>
    requires { length bytes.now ≤ 16777215 }
{
    let mut atoms = Atoms::new(alloc);
    if is_ascii(bytes) {
        let tokens = scan_ascii(alloc, bytes, 0, &mut atoms)?;
        return Ok((tokens, atoms));
    }
    let Ok(points) = decode(alloc, bytes) else {
        bail!("no text");
    };
    let tokens = scan(alloc, points.as_slice(), 0, bytes.len() as u32, &mut atoms)?;
    Ok((tokens, atoms))
}
